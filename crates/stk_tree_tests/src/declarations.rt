//! What each form of declaration prints, and where it may stand.
use crate::maker::{Maker, UNLAID, base, declarator, name, number};
use crate::printed::{A, B, C, F, ONE};
use std::process::Abort;
use stk_base::{List, Span};
use stk_tree::{
    Base, BaseForm, BinaryOp, Declaration, Declr, Desig, Dimension, Enumr, Fixed, Init, Item,
    Member, Param, Storage, Tail, Unit,
};

impl<R: Abort> Maker<'_, R> {
    /// Compares `base declarators ;` at file scope with what it is to print, and with whether it is to be well placed.
    fn check_file(&self, base: Base, list: List<Declr>, text: &str, placed: bool) {
        let unit = Unit::Declares(UNLAID, self.declares(base, list));
        self.check(self.boxed(unit), text, placed);
    }

    /// `int f tail ;`
    fn check_tail(&self, tail: Tail, text: &str, placed: bool) {
        let list = self.list([declarator(0, Some(F), tail, None)]);
        self.check_file(self.int(), list, text, placed);
    }

    /// `int a = init ;`
    fn check_init(&self, init: Init, text: &str, placed: bool) {
        let list = self.list([declarator(0, Some(A), Tail::Arrays(self.none()), Some(init))]);
        self.check_file(self.int(), list, text, placed);
    }

    fn words<const N: usize>(&self, words: [Fixed; N]) -> Base {
        base(BaseForm::Words(self.list(words)))
    }

    fn parameter(&self, base: Base, stars: u32, name: Option<Span>) -> Param {
        Param {
            node: UNLAID,
            base,
            declr: declarator(stars, name, Tail::Arrays(self.none()), None),
        }
    }

    fn member(&self, tail: Tail) -> Member {
        Member {
            base: self.int(),
            list: self.list([self.named(A), declarator(1, Some(B), tail, None)]),
        }
    }

    fn item<const N: usize>(&self, path: [Desig; N]) -> Item {
        Item {
            path: self.list(path),
            init: Init::Plain(name(B)),
        }
    }
}

#[test]
fn bases(rt: HostRuntime) {
    let make = Maker {
        alloc: rt.alloc(),
        rt: &rt,
    };
    let all = make.words([
        Fixed::Unsigned,
        Fixed::Long,
        Fixed::Signed,
        Fixed::Short,
        Fixed::Char,
        Fixed::Void,
        Fixed::Bool,
    ]);
    make.check_file(
        all,
        make.list([make.named(A)]),
        "unsigned long signed short char void _Bool a ;",
        true,
    );
    let other = make.words([Fixed::Int, Fixed::Double]);
    make.check_file(other, make.list([make.named(A)]), "int double a ;", false);
    make.check_file(make.words([]), make.list([make.named(A)]), "a ;", false);
    let named = base(BaseForm::Named(B));
    make.check_file(named, make.list([make.named(A)]), "b a ;", true);
    make.check_file(
        base(BaseForm::StructRef(A)),
        make.none(),
        "struct a ;",
        true,
    );
    make.check_file(base(BaseForm::EnumRef(A)), make.none(), "enum a ;", true);
}

#[test]
fn members_and_enumerators(rt: HostRuntime) {
    let make = Maker {
        alloc: rt.alloc(),
        rt: &rt,
    };
    let members = make.list([make.member(Tail::Arrays(make.list([Dimension::Open])))]);
    make.check_file(
        base(BaseForm::StructDef(Some(C), members)),
        make.none(),
        "struct c { int a , * b [ ] ; } ;",
        true,
    );
    let members = make.list([make.member(Tail::NoParams)]);
    make.check_file(
        base(BaseForm::StructDef(None, members)),
        make.none(),
        "struct { int a , * b ( void ) ; } ;",
        false,
    );
    let empty = base(BaseForm::StructDef(Some(C), make.none()));
    make.check_file(empty, make.none(), "struct c { } ;", false);
    let list = make.list([
        Enumr {
            name: A,
            value: Some(number(ONE)),
        },
        Enumr {
            name: B,
            value: None,
        },
    ]);
    make.check_file(
        base(BaseForm::EnumDef(Some(C), list, true)),
        make.list([make.named(F)]),
        "enum c { a = 1 , b , } f ;",
        true,
    );
    let comma = make.binary(BinaryOp::Comma, name(B), name(C));
    let list = make.list([Enumr {
        name: A,
        value: Some(comma),
    }]);
    make.check_file(
        base(BaseForm::EnumDef(None, list, false)),
        make.none(),
        "enum { a = b , c } ;",
        false,
    );
}

#[test]
fn parameters(rt: HostRuntime) {
    let make = Maker {
        alloc: rt.alloc(),
        rt: &rt,
    };
    make.check_tail(Tail::Unspecified, "int f ( ) ;", true);
    make.check_tail(Tail::NoParams, "int f ( void ) ;", true);
    let two = make.list([
        make.parameter(make.int(), 1, Some(A)),
        make.parameter(make.int(), 0, None),
    ]);
    make.check_tail(
        Tail::Params(two, true),
        "int f ( int * a , int , ... ) ;",
        true,
    );
    let void = make.parameter(make.words([Fixed::Void]), 0, None);
    make.check_tail(
        Tail::Params(make.list([void]), false),
        "int f ( void ) ;",
        false,
    );
    let void = make.parameter(make.words([Fixed::Void]), 0, None);
    make.check_tail(
        Tail::Params(make.list([void]), true),
        "int f ( void , ... ) ;",
        true,
    );
    let pointer = make.parameter(make.words([Fixed::Void]), 1, None);
    make.check_tail(
        Tail::Params(make.list([pointer]), false),
        "int f ( void * ) ;",
        true,
    );
    make.check_tail(Tail::Params(make.none(), false), "int f ( ) ;", false);
    let sizes = make.list([Dimension::Sized(name(A)), Dimension::Open]);
    make.check_tail(Tail::Arrays(sizes), "int f [ a ] [ ] ;", true);
}

#[test]
fn initialisers(rt: HostRuntime) {
    let make = Maker {
        alloc: rt.alloc(),
        rt: &rt,
    };
    make.check_init(Init::Braces(make.none(), false), "int a = { } ;", true);
    make.check_init(Init::Braces(make.none(), true), "int a = { , } ;", false);
    let items = make.list([
        make.item([Desig::Dot(C), Desig::At(name(A))]),
        make.item([]),
    ]);
    make.check_init(
        Init::Braces(items, true),
        "int a = { . c [ a ] = b , b , } ;",
        true,
    );
    let inner = Item {
        path: make.none(),
        init: Init::Braces(make.list([make.item([])]), false),
    };
    make.check_init(
        Init::Braces(make.list([inner]), false),
        "int a = { { b } } ;",
        true,
    );
}

#[test]
fn declarations_at_file_scope(rt: HostRuntime) {
    let make = Maker {
        alloc: rt.alloc(),
        rt: &rt,
    };
    make.check(make.boxed(Unit::Empty(UNLAID)), ";", true);
    for (storage, text) in [
        (Storage::Typedef, "typedef int a ;"),
        (Storage::Extern, "extern int a ;"),
        (Storage::Static, "static int a ;"),
    ] {
        let declaration = Declaration {
            storage: Some(storage),
            base: make.int(),
            list: make.list([make.named(A)]),
        };
        make.check(make.boxed(Unit::Declares(UNLAID, declaration)), text, true);
    }
    let unnamed = declarator(1, None, Tail::Arrays(make.none()), None);
    make.check_file(make.int(), make.list([unnamed]), "int * ;", false);
}
