// The true literals of one step, as marks: a literal is true where its mark is the step's stamp, so nothing is ever
// unmarked.
ghost use Rattle.std.specs.Prelude.{◌≡◌, ◌*◌, ◌<◌, ◌≤◌, ◌↔◌, length, IsTrue};
ghost use Rattle.std.specs.List.{All};
ghost use Rattle.stk_clauses.specs.Literals.{AreBelow};
ghost use Rattle.stk_check.specs.Marks.{IsMarked, IsSeen, IsGood, AreFalse};

use stk_clauses::Lit;

/// What a look at a clause finds: all its literals false, one that is unassigned beside false ones, or anything else.
pub(crate) enum Seen {
    Falsified,
    Single(Lit),
    Other,
}

fn is_marked(marks: &[usize], stamp: usize, lit: Lit) -> bool
    requires { lit.0 < length marks.now }
    ensures { IsTrue result ↔ IsMarked marks.now stamp lit }
{
    marks[lit.0 as usize] == stamp
}

/// Looks at each literal of a clause.
pub(crate) fn look(marks: &[usize], stamp: usize, vars: u32, clause: &[Lit]) -> Seen
    requires sized { length marks.now ≡ 2 * vars }
    requires below { AreBelow vars clause.now }
    ensures { IsSeen (IsMarked marks.now stamp) clause.now result }
{
    let mut left: Option<Lit> = None;
    for lit in clause {
        if !is_marked(marks, stamp, lit.negated()) {
            match left {
                None => left = Some(*lit),
                Some(other) => {
                    if other.0 != lit.0 {
                        return Seen::Other;
                    }
                }
            }
        }
    }
    match left {
        None => Seen::Falsified,
        Some(lit) => {
            if is_marked(marks, stamp, lit) {
                Seen::Other
            } else {
                Seen::Single(lit)
            }
        }
    }
}

/// Marks the negations of a clause's literals. Says whether its variables are below `vars` and no literal stands beside
/// its negation.
pub(crate) fn assume_false(marks: &mut [usize], stamp: usize, vars: u32, clause: &[Lit]) -> bool
    requires sized { length marks.old ≡ 2 * vars }
    requires positive { 0 < stamp }
    requires fresh { All (λ x. x < stamp) marks.old }
    ensures good { IsTrue result ↔ IsGood vars clause.now }
    ensures marked { IsTrue result → AreFalse marks.new stamp clause.now }
    ensures bounded { All (λ x. x ≤ stamp) marks.new }
{
    for lit in clause {
        if lit.0 as usize >= marks.len() {
            return false;
        }
        if is_marked(marks, stamp, *lit) {
            return false;
        }
        marks[lit.negated().0 as usize] = stamp;
    }
    true
}
