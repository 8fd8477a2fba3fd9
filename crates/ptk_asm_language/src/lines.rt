//! The lines of a source.

ghost use Rattle.std.specs.Prelude.{◌≡◌, ◌+◌, ◌<◌, ◌≤◌, ◌∷◌, length};
ghost use Rattle.ptk_asm_language.specs.Lines as is;
ghost use Rattle.ptk_asm_language.specs.Scanning.{line_len};

/// The first line of a text that isn't empty, with its LF, and the lines behind it.
#[tactic(auto, using(crate::proofs::LineList::raw_lines_front))]
pub fn split_line(source: &[u8]) -> (&[u8], &[u8])
    requires { 0 < length source.now }
    ensures lines { is.raw_lines source.now ≡ result.0.now ∷ is.raw_lines result.1.now }
    ensures lengths { length result.0.now + length result.1.now ≡ length source.now }
    ensures filled { 0 < length result.0.now }
{
    source.split_at(line_length(source))
}

/// How long the first line is, with its LF.
#[tactic(auto, using(crate::proofs::LineList::line_len_end, crate::proofs::LineList::line_len_more))]
fn line_length(source: &[u8]) -> usize
    ensures value { result ≡ line_len source.now }
    ensures inside { result ≤ length source.now }
    ensures filled { 0 < length source.now → 0 < result }
{
    for (i, c) in source.iter().enumerate() {
        if *c == b'\n' {
            return i + 1;
        }
    }
    source.len()
}

/// A line without its LF, and without a CR just before it.
#[tactic(auto, using(crate::proofs::Endings::ending_crlf, crate::proofs::Endings::ending_lf, crate::proofs::Endings::ending_none))]
pub fn without_ending(line: &[u8]) -> &[u8]
    ensures value { result.now ≡ is.without_ending line.now }
    ensures shorter { length result.now ≤ length line.now }
{
    let n = line.len();
    if n == 0 || line[n - 1] != b'\n' {
        return line;
    }
    if n >= 2 && line[n - 2] == b'\r' {
        return &line[..n - 2];
    }
    &line[..n - 1]
}

/// What of a line without its ending stands before the comment.
#[tactic(auto, using(crate::proofs::Endings::comment_cut))]
pub fn without_comment(line: &[u8]) -> &[u8]
    ensures value { result.now ≡ is.without_comment line.now }
    ensures shorter { length result.now ≤ length line.now }
{
    &line[..comment_start(line)]
}

/// Where the comment of a line begins, its end where there is none.
fn comment_start(line: &[u8]) -> usize
    ensures value { result ≡ length (is.without_comment line.now) }
    ensures inside { result ≤ length line.now }
{
    line.iter().take_while(|c| **c != b'#').count()
}
