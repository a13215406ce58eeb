//! Texts worked out by hand from the language's page.
use dc_tokens::{LexFault, TokenKind, line_col, one_reading, tokens};
use std::test::Fail;

fn is_kinds(rt: &HostRuntime, text: &[u8], kinds: &[TokenKind]) -> Result<bool, LexFault> {
    let found = tokens(rt.alloc(), text)?;
    if found.len() != kinds.len() {
        return Ok(false);
    }
    for (token, kind) in found.iter().zip(kinds) {
        if token.kind != *kind {
            return Ok(false);
        }
    }
    Ok(true)
}

#[test]
fn cuts_longest_tokens(rt: HostRuntime) -> Result<(), Fail> {
    one_reading(b"");
    let sums = b"tick -(n+1)*2; // no token: # ~\r\n";
    let kinds = [
        TokenKind::Tick,
        TokenKind::Minus,
        TokenKind::LParen,
        TokenKind::Name,
        TokenKind::Plus,
        TokenKind::Number,
        TokenKind::RParen,
        TokenKind::Star,
        TokenKind::Number,
        TokenKind::Semi,
    ];
    assert!(rt; is_kinds(&rt, sums, &kinds)?);
    let signs = b"<=<==!=!&&||procs proc _if0 007";
    let kinds = [
        TokenKind::Le,
        TokenKind::Le,
        TokenKind::Assign,
        TokenKind::Ne,
        TokenKind::Bang,
        TokenKind::And,
        TokenKind::Or,
        TokenKind::Name,
        TokenKind::Proc,
        TokenKind::Name,
        TokenKind::Number,
    ];
    assert!(rt; is_kinds(&rt, signs, &kinds)?);
    let number = tokens(rt.alloc(), b" 00002147483647;")?;
    assert_eq!(rt; number.len(), 2);
    assert_eq!(rt; number[0].value, 2147483647);
    assert_eq!(rt; number[0].at, 1);
    assert_eq!(rt; number[0].end, 15);
    Ok(())
}

#[test]
fn tells_the_first_fault(rt: HostRuntime) {
    let alloc = rt.alloc();
    let wide = b"proc f(n) { tick 2147483648; }";
    assert!(rt; matches!(tokens(alloc, wide), Err(LexFault::LiteralTooWide(17))));
    assert_eq!(rt; line_col(wide, 17), (1, 18));
    let widest = b"99999999999999999999999999999999999999999999999999";
    assert!(rt; matches!(tokens(alloc, widest), Err(LexFault::LiteralTooWide(0))));
    let single = b"a && b &\n& c";
    assert!(rt; matches!(tokens(alloc, single), Err(LexFault::BadCharacter(7))));
    assert!(rt; matches!(tokens(alloc, b"a / b"), Err(LexFault::BadCharacter(2))));
    let comment = b"x //\x80\n#";
    assert!(rt; matches!(tokens(alloc, comment), Err(LexFault::NotAscii(4))));
    assert!(rt; matches!(tokens(alloc, b"\n\n \xff"), Err(LexFault::NotAscii(3))));
    assert_eq!(rt; line_col(b"\n\n \xff", 3), (3, 2));
}
