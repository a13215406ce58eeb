//! Each call that takes memory, once on its happy path.
use dc_syntax::{Cond, Expr, Name, Names, Proc, Rel, Stmt, ascii_text, print_proc, same_params};
use sqlite_items::{Boxed, Items};
use std::alloc::{AllocError, Global};

fn procedure(alloc: Global, params: &str, local: &str) -> Result<Proc, AllocError> {
    let mut names = Names::new(alloc);
    for name in params.split_whitespace() {
        names.insert(String::from_str(alloc, name)?)?;
    }
    let params = names.len();
    names.insert(String::from_str(alloc, local)?)?;
    Ok(Proc {
        name: Name::new(ascii_text(alloc, b"f")?),
        names,
        params,
        body: Items::new(alloc),
    })
}

#[test]
fn parameters_agree_by_name_and_order(rt: HostRuntime) -> Result<(), AllocError> {
    let alloc = rt.alloc();
    let first = procedure(alloc, "n k", "i")?;
    assert_eq!(rt; first.name.as_str(), "f");
    assert!(rt; first.names.place("k") == Some(1));
    for (params, local, agree) in [
        ("n k", "j", true),
        ("k n", "i", false),
        ("n", "k", false),
        ("n k m", "i", false),
        ("n m", "k", false),
    ] {
        let other = procedure(alloc, params, local)?;
        assert_eq!(rt; same_params(&first, &other), agree, "at {params}");
    }
    Ok(())
}

// An expression from postfix signs: `n`, `x`, digits, `~` for the unary minus, `+`, `-`, `*`.
fn expr(alloc: Global, postfix: &str) -> Result<Expr, AllocError> {
    let mut stack: Vec<Expr> = Vec::new(alloc);
    for sign in postfix.as_bytes() {
        let whole = match *sign {
            b'n' => Expr::Var(0),
            b'x' => Expr::Var(2),
            b'0'..=b'9' => Expr::Num(u32::from(*sign - b'0')),
            operator => {
                let right = Boxed::new(alloc, stack.pop().unwrap_or(Expr::Num(0)))?;
                if operator == b'~' {
                    Expr::Neg(right)
                } else {
                    let left = Boxed::new(alloc, stack.pop().unwrap_or(Expr::Num(0)))?;
                    match operator {
                        b'+' => Expr::Add(left, right),
                        b'-' => Expr::Sub(left, right),
                        _ => Expr::Mul(left, right),
                    }
                }
            }
        };
        stack.push(whole)?;
    }
    Ok(stack.pop().unwrap_or(Expr::Num(0)))
}

// A condition from postfix signs: `T`, `F`, `<` for `n < x`, `!`, `&`, `|`.
fn cond(alloc: Global, postfix: &str) -> Result<Cond, AllocError> {
    let mut stack: Vec<Cond> = Vec::new(alloc);
    for sign in postfix.as_bytes() {
        let whole = match *sign {
            b'T' => Cond::True,
            b'F' => Cond::False,
            b'<' => Cond::Cmp(Expr::Var(0), Rel::Lt, Expr::Var(2)),
            operator => {
                let right = Boxed::new(alloc, stack.pop().unwrap_or(Cond::True))?;
                if operator == b'!' {
                    Cond::Not(right)
                } else {
                    let left = Boxed::new(alloc, stack.pop().unwrap_or(Cond::True))?;
                    if operator == b'&' {
                        Cond::And(left, right)
                    } else {
                        Cond::Or(left, right)
                    }
                }
            }
        };
        stack.push(whole)?;
    }
    Ok(stack.pop().unwrap_or(Cond::True))
}

// The printed procedure with this body.
fn print_body(alloc: Global, body: Items<Stmt>) -> Result<Vec<u8>, AllocError> {
    let mut p = procedure(alloc, "n m", "x")?;
    p.names.insert(String::from_str(alloc, "y")?)?;
    p.body = body;
    print_proc(alloc, &p)
}

#[test]
fn expressions_have_the_fewest_brackets(rt: HostRuntime) -> Result<(), AllocError> {
    let alloc = rt.alloc();
    for (postfix, text) in [
        ("n1+~2*", "-(n + 1) * 2"),
        ("n1+n2+-", "n + 1 - (n + 2)"),
        ("n1-n2--", "n - 1 - (n - 2)"),
        ("n12*+", "n + 1 * 2"),
        ("n1+2*", "(n + 1) * 2"),
        ("2n1-*", "2 * (n - 1)"),
        ("n1*2*", "n * 1 * 2"),
        ("n12**", "n * (1 * 2)"),
        ("n1*~", "-(n * 1)"),
        ("n~~", "--n"),
        ("x~1~*", "-x * -1"),
        ("n1~+", "n + -1"),
    ] {
        let mut body = Items::new(alloc);
        body.push(Stmt::Tick(expr(alloc, postfix)?))?;
        let expected = format!(in alloc; "proc f(n, m) {{\nvar x, y;\ntick {text};\n}}\n")?;
        let printed = print_body(alloc, body)?;
        assert!(rt; printed.as_slice() == expected.as_bytes(), "at {postfix}");
    }
    Ok(())
}

#[test]
fn conditions_have_the_fewest_brackets(rt: HostRuntime) -> Result<(), AllocError> {
    let alloc = rt.alloc();
    for (postfix, text) in [
        ("TF|T&", "[true || false] && true"),
        ("TTF|&", "true && [true || false]"),
        ("TTF&&", "true && [true && false]"),
        ("TF&T&", "true && false && true"),
        ("TF&T|", "true && false || true"),
        ("TTF||", "true || [true || false]"),
        ("TF|!", "![true || false]"),
        ("TF&!", "![true && false]"),
        ("<!!T&", "!!n < x && true"),
    ] {
        let mut body = Items::new(alloc);
        body.push(Stmt::Assume(cond(alloc, postfix)?))?;
        let expected = format!(in alloc; "proc f(n, m) {{\nvar x, y;\nassume ({text});\n}}\n")?;
        let printed = print_body(alloc, body)?;
        assert!(rt; printed.as_slice() == expected.as_bytes(), "at {postfix}");
    }
    Ok(())
}

fn one(alloc: Global, statement: Stmt) -> Result<Items<Stmt>, AllocError> {
    let mut body = Items::new(alloc);
    body.push(statement)?;
    Ok(body)
}

#[test]
fn each_statement_has_its_lines(rt: HostRuntime) -> Result<(), AllocError> {
    let alloc = rt.alloc();
    let mut body = Items::new(alloc);
    body.push(Stmt::Skip)?;
    body.push(Stmt::Assign(2, expr(alloc, "n1+")?))?;
    body.push(Stmt::AnyOf(3))?;
    body.push(Stmt::Between(3, expr(alloc, "n")?, expr(alloc, "x")?))?;
    body.push(Stmt::If(
        cond(alloc, "<")?,
        one(alloc, Stmt::Skip)?,
        Items::new(alloc),
    ))?;
    body.push(Stmt::IfAny(Items::new(alloc), one(alloc, Stmt::Skip)?))?;
    let inner = one(alloc, Stmt::WhileAny(Items::new(alloc)))?;
    body.push(Stmt::While(
        Cond::Cmp(expr(alloc, "n")?, Rel::Ne, expr(alloc, "0")?),
        inner,
    ))?;
    let expected =
        "proc f(n, m) {\nvar x, y;\nskip;\nx = n + 1;\ny = any;\ny = any(n, x);\nif (n < x) {\nskip;\n} else {\n}\nif (*) {\n} else {\nskip;\n}\nwhile (n != 0) {\nwhile (*) {\n}\n}\n}\n";
    let printed = print_body(alloc, body)?;
    assert!(rt; printed.as_slice() == expected.as_bytes());
    Ok(())
}
