//! Sources, and the texts that print them.
use dc_parse::parse_proc;
use dc_syntax::print_proc;
use std::test::Fail;

const PRODUCT: &str = "proc f(n){tick -(n+1)*2;}";

const PRODUCT_PRINTED: &str = "proc f(n) {
tick -(n + 1) * 2;
}
";

const EVERY_STATEMENT: &str = "// each statement once
proc cost ( n , m ) {
  var i, j;   // two locals
  skip;
  i = ((n) + (m - 1)) - 0002;
  j = any;
  j = any((0), n * (2 + 3));
  tick -(-(3)) * (i * 2) - (j);
  tick -(i * 2) + (n - m);
  assume ([n < m] && [[[m != 0] && true] || ![j >= (i)]]);
  assume ([n < 0 || m < 0] || [i < 0 || j < 0]);
  if (![n == 1 || false]) { tick 1; }
  if (*) { skip; } else { tick 2; }
  while (i < n && [j > 0 && m <= 7]) { i = i + 1; if (n > 0) { } else { } }
  while (*) { } // nothing inside
}
// the end";

const EVERY_STATEMENT_PRINTED: &str = "proc cost(n, m) {
var i, j;
skip;
i = n + (m - 1) - 2;
j = any;
j = any(0, n * (2 + 3));
tick --3 * (i * 2) - j;
tick -(i * 2) + (n - m);
assume (n < m && [m != 0 && true || !j >= i]);
assume (n < 0 || m < 0 || [i < 0 || j < 0]);
if (![n == 1 || false]) {
tick 1;
} else {
}
if (*) {
skip;
} else {
tick 2;
}
while (i < n && [j > 0 && m <= 7]) {
i = i + 1;
if (n > 0) {
} else {
}
}
while (*) {
}
}
";

#[test]
fn prints_what_was_parsed(rt: HostRuntime) -> Result<(), Fail> {
    let alloc = rt.alloc();
    for (source, expected) in [
        (PRODUCT, PRODUCT_PRINTED),
        (PRODUCT_PRINTED, PRODUCT_PRINTED),
        (EVERY_STATEMENT, EVERY_STATEMENT_PRINTED),
        (EVERY_STATEMENT_PRINTED, EVERY_STATEMENT_PRINTED),
    ] {
        let parsed = parse_proc(alloc, source.as_bytes())?;
        let printed = print_proc(alloc, &parsed)?;
        assert!(rt; printed.as_slice() == expected.as_bytes(), "{source}");
    }
    Ok(())
}
