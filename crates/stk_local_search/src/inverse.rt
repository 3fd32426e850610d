//! Targets of arguments, operator by operator: numbers of them for which an operator has its target, where such are
//! found by undoing the operator while the other argument stays as it is.

use crate::targets::{Targets, Wish};
use stk_terms::TermOp;

// A number shifted to the left, without the bits that leave 128.
fn shifted_left(number: u128, count: u128) -> u128 {
    if count < 128 {
        number << (count as u32)
    } else {
        0
    }
}

// A number shifted to the right.
fn shifted_right(number: u128, count: u128) -> u128 {
    if count < 128 {
        number >> (count as u32)
    } else {
        0
    }
}

// The greatest number of a width.
fn greatest(width: u8) -> u128 {
    shifted_left(1, u128::from(width)).wrapping_sub(1)
}

// Bits that are both 1, though the target has 0 there, are cleared in one argument.
fn conjunction(wish: &Wish) -> Targets {
    let first = wish.first.number | wish.target;
    let second = wish.second.number | wish.target;
    let kept = !(first & second) | wish.target;
    if wish.changes_first {
        Targets::both(first & kept, second)
    } else {
        Targets::both(first, second & kept)
    }
}

// Bits that are both 0, though the target has 1 there, are set in one argument.
fn disjunction(wish: &Wish) -> Targets {
    let first = wish.first.number & wish.target;
    let second = wish.second.number & wish.target;
    let missing = wish.target & !(first | second);
    if wish.changes_first {
        Targets::both(first | missing, second)
    } else {
        Targets::both(first, second | missing)
    }
}

// One of the summands makes up for the other.
fn sum(wish: &Wish) -> Targets {
    let all = greatest(wish.width);
    Targets::one(
        wish.changes_first,
        wish.target.wrapping_sub(wish.second.number) & all,
        wish.target.wrapping_sub(wish.first.number) & all,
    )
}

// One of the two makes up for the other.
fn difference(wish: &Wish) -> Targets {
    let all = greatest(wish.width);
    Targets::one(
        wish.changes_first,
        wish.target.wrapping_add(wish.second.number) & all,
        wish.first.number.wrapping_sub(wish.target) & all,
    )
}

// Whether a number is a multiple of one that isn't 0.
fn is_multiple(number: u128, of: u128) -> bool {
    of != 0 && number % of == 0
}

// The quotient of two numbers, 0 where the second is 0.
fn quotient(number: u128, by: u128) -> u128 {
    if by == 0 { 0 } else { number / by }
}

// One factor is the quotient by the other where there is no rest, and else the target itself, times 1.
fn product(wish: &Wish) -> Targets {
    if is_multiple(wish.target, wish.second.number) && !wish.first.is_constant {
        return Targets::first(quotient(wish.target, wish.second.number));
    }
    if is_multiple(wish.target, wish.first.number) && !wish.second.is_constant {
        return Targets::second(quotient(wish.target, wish.first.number));
    }
    Targets::both(wish.target, 1)
}

// The dividend is the product of the target and the divisor where this isn't too large, and else the target, by 1.
fn dividend(wish: &Wish) -> Targets {
    let by = wish.second.number;
    if wish.target == 0 {
        return Targets::first(0);
    }
    if by != 0 && wish.target <= quotient(greatest(wish.width), by) {
        return Targets::first(wish.target.wrapping_mul(by));
    }
    Targets::both(wish.target, 1)
}

// The dividend is the target, where the divisor is larger or 0, and else the divisor becomes larger by 1.
fn rest(wish: &Wish) -> Targets {
    if wish.second.number == 0 || wish.target < wish.second.number {
        return Targets::first(wish.target);
    }
    let all = greatest(wish.width);
    Targets::both(wish.target, wish.target.wrapping_add(1) & all)
}

// The target is shifted back where the count is below the width, and else the count becomes 0.
fn shift(wish: &Wish, back: u128) -> Targets {
    if wish.second.number < u128::from(wish.width) {
        Targets::first(back & greatest(wish.width))
    } else {
        Targets::both(wish.target, 0)
    }
}

// One side becomes the other, or differs from it in the lowest bit.
fn equality(wish: &Wish) -> Targets {
    let apart = 1 - (wish.target & 1);
    Targets::one(
        wish.changes_first,
        wish.second.number ^ apart,
        wish.first.number ^ apart,
    )
}

// One side becomes the other, or one less or more than it. The numbers are compared without signs once `sign` is
// exchanged in both.
fn order(wish: &Wish, sign: u128) -> Targets {
    let first = wish.first.number ^ sign;
    let second = wish.second.number ^ sign;
    let all = greatest(wish.first.width);
    if wish.target != 1 {
        return Targets::one(wish.changes_first, wish.second.number, wish.first.number);
    }
    if wish.changes_first && second == 0 {
        return Targets::both(sign, 1 ^ sign);
    }
    if !wish.changes_first && first == all {
        return Targets::both(all.wrapping_sub(1) ^ sign, all ^ sign);
    }
    Targets::one(
        wish.changes_first,
        second.wrapping_sub(1) ^ sign,
        first.wrapping_add(1) ^ sign,
    )
}

// The taken arm gets the target. If it is a constant, the other one gets it, and is taken.
fn choice(wish: &Wish) -> Targets {
    let takes_second = wish.first.number == 1;
    let taken = if takes_second {
        wish.second
    } else {
        wish.third
    };
    let changes = taken.is_constant;
    Targets {
        first: if changes {
            Some(1 ^ wish.first.number)
        } else {
            None
        },
        second: if takes_second != changes {
            Some(wish.target)
        } else {
            None
        },
        third: if takes_second == changes {
            Some(wish.target)
        } else {
            None
        },
    }
}

// The bits of the target take the place of those that are cut out.
fn extract(wish: &Wish, low: u8) -> Targets {
    let bits = shifted_left(greatest(wish.width), u128::from(low));
    let moved = shifted_left(wish.target, u128::from(low));
    Targets::first(wish.first.number & !bits | moved)
}

// Both parts of the target.
fn parts(wish: &Wish) -> Targets {
    Targets::both(
        shifted_right(wish.target, u128::from(wish.second.width)),
        wish.target & greatest(wish.second.width),
    )
}

/// Numbers of a term's arguments that likely give it its target. An input and a constant have no arguments.
pub(crate) fn inverse(wish: &Wish) -> Targets {
    let all = greatest(wish.width);
    let target = wish.target;
    match wish.op {
        TermOp::Constant(_, _) | TermOp::Input(_) => Targets::none(),
        TermOp::Not => Targets::first(target ^ all),
        TermOp::Neg => Targets::first(0u128.wrapping_sub(target) & all),
        TermOp::And => conjunction(wish),
        TermOp::Or => disjunction(wish),
        TermOp::Xor => Targets::one(
            wish.changes_first,
            target ^ wish.second.number,
            target ^ wish.first.number,
        ),
        TermOp::Add => sum(wish),
        TermOp::Sub => difference(wish),
        TermOp::Mul => product(wish),
        TermOp::UDiv => dividend(wish),
        TermOp::URem => rest(wish),
        TermOp::Shl => shift(wish, shifted_right(target, wish.second.number)),
        TermOp::LShr | TermOp::AShr => shift(wish, shifted_left(target, wish.second.number)),
        TermOp::Eq => equality(wish),
        TermOp::ULt => order(wish, 0),
        TermOp::SLt => order(wish, sign_bit(wish.first.width)),
        TermOp::Extract(low, _) => extract(wish, low),
        TermOp::ZeroExt(_) | TermOp::SignExt(_) => Targets::first(
            target & greatest(wish.first.width),
        ),
        TermOp::Concat => parts(wish),
        TermOp::Ite => choice(wish),
    }
}

// The sign bit of a width.
fn sign_bit(width: u8) -> u128 {
    greatest(width) ^ shifted_right(greatest(width), 1)
}
