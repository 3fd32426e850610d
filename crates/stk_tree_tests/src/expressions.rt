//! What each form of expression prints, and which operands it may have.
use crate::maker::{Maker, UNLAID, base, declarator, expression, name, number};
use crate::printed::{A, B, C, LETTER, ONE, S, T};
use std::process::Abort;
use stk_base::{Boxed, Span};
use stk_tree::{
    AssignOp, BaseForm, BinaryOp, Dimension, Expr, ExprForm, Init, Member, StepOp, Tail, TypeName,
    UnaryOp, Unit,
};

impl<R: Abort> Maker<'_, R> {
    /// `int a = e ;`
    fn value(&self, e: Expr) -> Boxed<Unit> {
        let declarator = declarator(0, Some(A), Tail::Arrays(self.none()), Some(Init::Plain(e)));
        let declaration = self.declares(self.int(), self.list([declarator]));
        self.boxed(Unit::Declares(UNLAID, declaration))
    }

    /// Compares `int a = e ;` with what it is to print, and with whether it is to be well placed.
    fn check_value(&self, e: Expr, text: &str, placed: bool) {
        self.check(self.value(e), text, placed);
    }

    fn step(&self, op: StepOp, e: Expr) -> Expr {
        expression(ExprForm::Step(op, self.boxed(e)))
    }

    fn unary(&self, op: UnaryOp, e: Expr) -> Expr {
        expression(ExprForm::Unary(op, self.boxed(e)))
    }

    fn assign(&self, op: AssignOp, a: Expr, b: Expr) -> Expr {
        expression(ExprForm::Assign(op, self.boxed(a), self.boxed(b)))
    }

    fn choice(&self, a: Expr, b: Expr, c: Expr) -> Expr {
        expression(ExprForm::Choice(self.boxed(a), self.boxed(b), self.boxed(c)))
    }

    fn index(&self, a: Expr, b: Expr) -> Expr {
        expression(ExprForm::Index(self.boxed(a), self.boxed(b)))
    }

    fn dot(&self, e: Expr, member: Span) -> Expr {
        expression(ExprForm::Dot(self.boxed(e), member))
    }

    fn arrow(&self, e: Expr, member: Span) -> Expr {
        expression(ExprForm::Arrow(self.boxed(e), member))
    }

    fn cast(&self, to: TypeName, e: Expr) -> Expr {
        expression(ExprForm::Cast(to, self.boxed(e)))
    }

    fn size(&self, e: Expr) -> Expr {
        expression(ExprForm::SizeExpr(self.boxed(e)))
    }

    fn minus(&self, a: Expr, b: Expr) -> Expr {
        self.binary(BinaryOp::Sub, a, b)
    }

    /// `int * [ 1 ]`
    fn pointers(&self) -> TypeName {
        TypeName {
            node: UNLAID,
            base: self.int(),
            stars: 1,
            arrays: self.list([Dimension::Sized(number(ONE))]),
        }
    }

    /// `struct { int a ; }`
    fn braces(&self) -> TypeName {
        let member = Member {
            base: self.int(),
            list: self.list([self.named(A)]),
        };
        TypeName {
            node: UNLAID,
            base: base(BaseForm::StructDef(None, self.list([member]))),
            stars: 0,
            arrays: self.none(),
        }
    }
}

#[test]
fn leaves(rt: HostRuntime) {
    let make = Maker {
        alloc: rt.alloc(),
        rt: &rt,
    };
    make.check_value(name(B), "int a = b ;", true);
    make.check_value(number(ONE), "int a = 1 ;", true);
    make.check_value(
        expression(ExprForm::Character(LETTER)),
        "int a = 'c' ;",
        true,
    );
    let text = expression(ExprForm::Text(make.list([S, T])));
    make.check_value(text, "int a = \"s\" \"t\" ;", true);
    let empty = expression(ExprForm::Text(make.none()));
    make.check_value(empty, "int a = ;", false);
}

#[test]
fn postfix_forms(rt: HostRuntime) {
    let make = Maker {
        alloc: rt.alloc(),
        rt: &rt,
    };
    make.check_value(make.index(name(B), name(C)), "int a = b [ c ] ;", true);
    let list = make.list([name(C), name(A)]);
    let call = expression(ExprForm::Call(make.boxed(name(B)), list));
    make.check_value(call, "int a = b ( c , a ) ;", true);
    let call = expression(ExprForm::Call(make.boxed(name(B)), make.none()));
    make.check_value(call, "int a = b ( ) ;", true);
    let comma = make.binary(BinaryOp::Comma, name(C), name(A));
    let call = expression(ExprForm::Call(make.boxed(name(B)), make.list([comma])));
    make.check_value(call, "int a = b ( c , a ) ;", false);
    let member = make.arrow(make.dot(name(A), B), C);
    make.check_value(member, "int a = a . b -> c ;", true);
    let member = make.dot(make.unary(UnaryOp::Deref, name(A)), B);
    make.check_value(member, "int a = * a . b ;", false);
}

#[test]
fn unary_forms(rt: HostRuntime) {
    let make = Maker {
        alloc: rt.alloc(),
        rt: &rt,
    };
    for (op, text) in [
        (UnaryOp::Address, "int a = & b ;"),
        (UnaryOp::Deref, "int a = * b ;"),
        (UnaryOp::Plus, "int a = + b ;"),
        (UnaryOp::Minus, "int a = - b ;"),
        (UnaryOp::Flip, "int a = ~ b ;"),
        (UnaryOp::Not, "int a = ! b ;"),
    ] {
        make.check_value(make.unary(op, name(B)), text, true);
    }
    for (op, text) in [
        (StepOp::IncBefore, "int a = ++ b ;"),
        (StepOp::DecBefore, "int a = -- b ;"),
        (StepOp::IncAfter, "int a = b ++ ;"),
        (StepOp::DecAfter, "int a = b -- ;"),
    ] {
        make.check_value(make.step(op, name(B)), text, true);
    }
    make.check_value(make.size(name(B)), "int a = sizeof b ;", true);
    let size = make.size(make.cast(make.pointers(), name(B)));
    make.check_value(size, "int a = sizeof ( int * [ 1 ] ) b ;", false);
    let size = expression(ExprForm::SizeName(make.pointers()));
    make.check_value(size, "int a = sizeof ( int * [ 1 ] ) ;", true);
    let cast = make.unary(UnaryOp::Minus, make.cast(make.pointers(), name(B)));
    make.check_value(cast, "int a = - ( int * [ 1 ] ) b ;", true);
    let cast = make.cast(make.braces(), name(B));
    make.check_value(cast, "int a = ( struct { int a ; } ) b ;", false);
}

#[test]
fn binary_forms(rt: HostRuntime) {
    let make = Maker {
        alloc: rt.alloc(),
        rt: &rt,
    };
    for (op, text) in [
        (BinaryOp::Comma, "int a = ( b , c ) ;"),
        (BinaryOp::OrElse, "int a = ( b || c ) ;"),
        (BinaryOp::AndAlso, "int a = ( b && c ) ;"),
        (BinaryOp::Or, "int a = ( b | c ) ;"),
        (BinaryOp::Xor, "int a = ( b ^ c ) ;"),
        (BinaryOp::And, "int a = ( b & c ) ;"),
        (BinaryOp::Eq, "int a = ( b == c ) ;"),
        (BinaryOp::Ne, "int a = ( b != c ) ;"),
        (BinaryOp::Lt, "int a = ( b < c ) ;"),
        (BinaryOp::Gt, "int a = ( b > c ) ;"),
        (BinaryOp::Le, "int a = ( b <= c ) ;"),
        (BinaryOp::Ge, "int a = ( b >= c ) ;"),
        (BinaryOp::Left, "int a = ( b << c ) ;"),
        (BinaryOp::Right, "int a = ( b >> c ) ;"),
        (BinaryOp::Add, "int a = ( b + c ) ;"),
        (BinaryOp::Sub, "int a = ( b - c ) ;"),
        (BinaryOp::Mul, "int a = ( b * c ) ;"),
        (BinaryOp::Div, "int a = ( b / c ) ;"),
        (BinaryOp::Rem, "int a = ( b % c ) ;"),
    ] {
        let inner = make.binary(op, name(B), name(C));
        make.check_value(make.paren(inner), text, true);
    }
    let comma = make.binary(BinaryOp::Comma, name(B), name(C));
    make.check_value(comma, "int a = b , c ;", false);
    let left = make.minus(make.minus(name(A), name(B)), name(C));
    make.check_value(left, "int a = a - b - c ;", true);
    let right = make.minus(name(A), make.minus(name(B), name(C)));
    make.check_value(right, "int a = a - b - c ;", false);
    let stronger = make.minus(name(A), make.binary(BinaryOp::Mul, name(B), name(C)));
    make.check_value(stronger, "int a = a - b * c ;", true);
    let weaker = make.binary(BinaryOp::Mul, make.minus(name(A), name(B)), name(C));
    make.check_value(weaker, "int a = a - b * c ;", false);
}

#[test]
fn choices_and_assignments(rt: HostRuntime) {
    let make = Maker {
        alloc: rt.alloc(),
        rt: &rt,
    };
    for (op, text) in [
        (AssignOp::Plain, "int a = b = c ;"),
        (AssignOp::Mul, "int a = b *= c ;"),
        (AssignOp::Div, "int a = b /= c ;"),
        (AssignOp::Rem, "int a = b %= c ;"),
        (AssignOp::Add, "int a = b += c ;"),
        (AssignOp::Sub, "int a = b -= c ;"),
        (AssignOp::Left, "int a = b <<= c ;"),
        (AssignOp::Right, "int a = b >>= c ;"),
        (AssignOp::And, "int a = b &= c ;"),
        (AssignOp::Xor, "int a = b ^= c ;"),
        (AssignOp::Or, "int a = b |= c ;"),
    ] {
        make.check_value(make.assign(op, name(B), name(C)), text, true);
    }
    let cast = make.cast(make.pointers(), name(B));
    let assigned = make.assign(AssignOp::Plain, cast, name(C));
    make.check_value(assigned, "int a = ( int * [ 1 ] ) b = c ;", false);
    let choice = make.choice(name(A), name(B), name(C));
    make.check_value(choice, "int a = a ? b : c ;", true);
    let inner = make.choice(name(B), name(C), name(A));
    let last = make.choice(name(A), name(B), inner);
    make.check_value(last, "int a = a ? b : b ? c : a ;", true);
    let inner = make.choice(name(A), name(B), name(B));
    let first = make.choice(inner, name(C), name(A));
    make.check_value(first, "int a = a ? b : b ? c : a ;", false);
}
