//! Lines and columns.
ghost use Rattle.std.specs.Prelude.{◌≡◌, ◌≤◌, length};
ghost use Rattle.dc_tokens.specs.Lines.{line_at, column_at};

/// The line and the column of an offset, both from 1: a column counts the bytes after the last line
/// feed.
pub fn line_col(bytes: &[u8], offset: usize) -> (u32, u32)
    requires short { length bytes.now ≤ 65536 }
    requires within { offset ≤ length bytes.now }
    ensures line { result.0 ≡ line_at bytes.now offset }
    ensures column { result.1 ≡ column_at bytes.now offset }
{
    let mut line = 1;
    let mut column = 1;
    for byte in &bytes[..offset] {
        if *byte == b'\n' {
            line += 1;
            column = 1;
        } else {
            column += 1;
        }
    }
    (line, column)
}
