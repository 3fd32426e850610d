//! What each form of statement prints, and where it may stand.
use crate::maker::{Maker, UNLAID, base, name, statement};
use crate::printed::{A, B, C};
use std::process::Abort;
use stk_tree::{BaseForm, Declaration, Expr, Label, Part, Section, Start, StmtForm, Storage};

impl<R: Abort> Maker<'_, R> {
    /// Compares `int f ( ) { part }` with what it is to print, and with whether it is to be well placed.
    fn check_part(&self, part: Part, text: &str, placed: bool) {
        let body = statement(StmtForm::Block(self.list([part])));
        self.check(self.function(body), text, placed);
    }

    fn check_statement(&self, form: StmtForm, text: &str, placed: bool) {
        self.check_part(Part::Run(statement(form)), text, placed);
    }

    /// `if ( a ) form`
    fn if_alone(&self, form: StmtForm) -> StmtForm {
        StmtForm::If(name(A), self.boxed(statement(form)), None)
    }

    /// `if ( b ) form else other`
    fn if_else(&self, form: StmtForm, other: StmtForm) -> StmtForm {
        let body = self.boxed(statement(form));
        StmtForm::If(name(B), body, Some(self.boxed(statement(other))))
    }

    /// `while ( c ) form`
    fn repeated(&self, form: StmtForm) -> StmtForm {
        StmtForm::While(name(C), self.boxed(statement(form)))
    }

    /// `for ( start test ; step ) break ;`
    fn counted(&self, start: Start, test: Option<Expr>, step: Option<Expr>) -> StmtForm {
        StmtForm::For(start, test, step, self.boxed(statement(StmtForm::Break)))
    }

    /// `case label :` or `default :`, and `break ;` or nothing
    fn section(&self, label: Label, breaks: bool) -> Section {
        let body = if breaks {
            self.list([statement(StmtForm::Break)])
        } else {
            self.none()
        };
        Section {
            node: UNLAID,
            labels: self.list([label]),
            body,
        }
    }

    /// `storage int a , b ;`
    fn two_names(&self, storage: Option<Storage>) -> Declaration {
        Declaration {
            storage,
            base: self.int(),
            list: self.list([self.named(A), self.named(B)]),
        }
    }
}

#[test]
fn plain_statements(rt: HostRuntime) {
    let make = Maker {
        alloc: rt.alloc(),
        rt: &rt,
    };
    make.check_statement(StmtForm::Break, "int f ( ) { break ; }", true);
    make.check_statement(StmtForm::Continue, "int f ( ) { continue ; }", true);
    make.check_statement(StmtForm::Plain(None), "int f ( ) { ; }", true);
    make.check_statement(StmtForm::Plain(Some(name(A))), "int f ( ) { a ; }", true);
    make.check_statement(StmtForm::Return(None), "int f ( ) { return ; }", true);
    make.check_statement(
        StmtForm::Return(Some(name(A))),
        "int f ( ) { return a ; }",
        true,
    );
    make.check_statement(StmtForm::Block(make.none()), "int f ( ) { { } }", true);
    make.check(
        make.function(statement(StmtForm::Break)),
        "int f ( ) break ;",
        false,
    );
}

#[test]
fn tests_and_loops(rt: HostRuntime) {
    let make = Maker {
        alloc: rt.alloc(),
        rt: &rt,
    };
    let form = make.if_alone(make.if_else(StmtForm::Break, StmtForm::Continue));
    make.check_statement(
        form,
        "int f ( ) { if ( a ) if ( b ) break ; else continue ; }",
        true,
    );
    // the same tokens, with the `else` at the outer `if`
    let outer = StmtForm::If(
        name(A),
        make.boxed(statement(StmtForm::If(name(B), make.boxed(statement(StmtForm::Break)), None))),
        Some(make.boxed(statement(StmtForm::Continue))),
    );
    make.check_statement(
        outer,
        "int f ( ) { if ( a ) if ( b ) break ; else continue ; }",
        false,
    );
    let form = make.if_else(
        make.repeated(make.if_alone(StmtForm::Break)),
        StmtForm::Break,
    );
    make.check_statement(
        form,
        "int f ( ) { if ( b ) while ( c ) if ( a ) break ; else break ; }",
        false,
    );
    let form = StmtForm::Do(
        make.boxed(statement(make.if_alone(StmtForm::Break))),
        name(B),
    );
    make.check_statement(
        make.if_else(form, StmtForm::Break),
        "int f ( ) { if ( b ) do if ( a ) break ; while ( b ) ; else break ; }",
        true,
    );
}

#[test]
fn counted_loops(rt: HostRuntime) {
    let make = Maker {
        alloc: rt.alloc(),
        rt: &rt,
    };
    make.check_statement(
        make.counted(Start::Plain(None), None, None),
        "int f ( ) { for ( ; ; ) break ; }",
        true,
    );
    make.check_statement(
        make.counted(Start::Plain(Some(name(A))), Some(name(B)), Some(name(C))),
        "int f ( ) { for ( a ; b ; c ) break ; }",
        true,
    );
    make.check_statement(
        make.counted(Start::Local(make.two_names(None)), None, Some(name(C))),
        "int f ( ) { for ( int a , b ; ; c ) break ; }",
        true,
    );
    make.check_statement(
        make.counted(
            Start::Local(make.two_names(Some(Storage::Extern))),
            Some(name(B)),
            None,
        ),
        "int f ( ) { for ( extern int a , b ; b ; ) break ; }",
        false,
    );
}

#[test]
fn switches(rt: HostRuntime) {
    let make = Maker {
        alloc: rt.alloc(),
        rt: &rt,
    };
    make.check_statement(
        StmtForm::Switch(name(A), make.none()),
        "int f ( ) { switch ( a ) { } }",
        true,
    );
    let sections = make.list([
        make.section(Label::Case(name(B)), true),
        make.section(Label::Default, false),
    ]);
    make.check_statement(
        StmtForm::Switch(name(A), sections),
        "int f ( ) { switch ( a ) { case b : break ; default : } }",
        true,
    );
    let sections = make.list([
        make.section(Label::Case(name(B)), false),
        make.section(Label::Default, true),
    ]);
    make.check_statement(
        StmtForm::Switch(name(A), sections),
        "int f ( ) { switch ( a ) { case b : default : break ; } }",
        false,
    );
    let section = Section {
        node: UNLAID,
        labels: make.list([Label::Case(name(B)), Label::Default]),
        body: make.list([statement(StmtForm::Break)]),
    };
    make.check_statement(
        StmtForm::Switch(name(A), make.list([section])),
        "int f ( ) { switch ( a ) { case b : default : break ; } }",
        true,
    );
}

#[test]
fn local_declarations(rt: HostRuntime) {
    let make = Maker {
        alloc: rt.alloc(),
        rt: &rt,
    };
    for (storage, text, placed) in [
        (None, "int f ( ) { int a , b ; }", true),
        (
            Some(Storage::Static),
            "int f ( ) { static int a , b ; }",
            true,
        ),
        (
            Some(Storage::Extern),
            "int f ( ) { extern int a , b ; }",
            false,
        ),
        (
            Some(Storage::Typedef),
            "int f ( ) { typedef int a , b ; }",
            false,
        ),
    ] {
        make.check_part(Part::Local(make.two_names(storage)), text, placed);
    }
    let nothing = make.declares(make.int(), make.none());
    make.check_part(Part::Local(nothing), "int f ( ) { int ; }", false);
    let tag = make.declares(base(BaseForm::StructRef(A)), make.list([make.named(B)]));
    make.check_part(Part::Local(tag), "int f ( ) { struct a b ; }", true);
}
