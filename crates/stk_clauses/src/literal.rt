// Literals.
ghost use Rattle.std.specs.Prelude.{◌≡◌, ◌+◌, ◌-◌, ◌*◌, ◌/◌, ◌%◌, ◌<◌, ◌^◌, ◌==◌, if◌then◌else◌};
ghost use Rattle.std.specs.Prelude.{◌↔◌, IsTrue, length};
ghost use Rattle.std.specs.List.{Contains};
ghost use Rattle.stk_clauses.specs.Literals.{negated, AreDistinct, AreBelow};

/// A literal, a variable or its negation: 2 times the variable, plus 1 if it is negated. Variables count from 0.
#[derive(Clone, Copy, Debug, PartialEq, Eq)]
pub struct Lit(pub u32);

impl Lit {
    /// The literal of a variable below 2^31, with its sign.
    pub fn new(variable: u32, negated: bool) -> Lit
        requires { variable < 2 ^ 31 }
        ensures { result.0 ≡ 2 * variable + (if negated then 1 else 0) }
    {
        Lit(2 * variable + u32::from(negated))
    }

    /// The literal's variable.
    pub fn variable(self) -> u32
        ensures { result ≡ self.0 / 2 }
    {
        self.0 / 2
    }

    /// Whether the literal is the negation of its variable.
    pub fn is_negated(self) -> bool
        ensures { result ≡ (self.0 % 2 == 1) }
    {
        self.0 % 2 == 1
    }

    /// The literal of the same variable with the other sign.
    pub fn negated(self) -> Lit
        ensures { result ≡ negated self }
    {
        Lit(self.0 - self.0 % 2 + (1 - self.0 % 2))
    }
}

/// Whether the literal is one of these.
pub fn is_among(literals: &[Lit], lit: Lit) -> bool
    ensures { IsTrue result ↔ Contains literals.now lit }
{
    for other in literals {
        if other.0 == lit.0 {
            return true;
        }
    }
    false
}

/// Whether no literal stands twice in the clause. It takes time quadratic in the clause's length.
pub fn are_distinct(clause: &[Lit]) -> bool
    ensures { IsTrue result ↔ AreDistinct clause.now }
{
    let mut rest = clause;
    while let Some((first, behind)) = rest.split_first() {
        if is_among(behind, *first) {
            return false;
        }
        rest = behind;
    }
    true
}

/// Whether each literal's variable is below `vars`.
pub(crate) fn are_below(clause: &[Lit], vars: u32) -> bool
    ensures { IsTrue result ↔ AreBelow vars clause.now }
{
    for lit in clause {
        if lit.variable() >= vars {
            return false;
        }
    }
    true
}
