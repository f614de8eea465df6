//! What `diff` writes, where a script should stand.

ghost use Rattle.std.specs.Prelude.{◌≡◌, true, IfSome};
ghost use Rattle.remarks.specs.Shown.{is_unread};

use crate::Slip;
use ed_base::next_line;
use ed_syntax::number;

/// What stands after a number, or after two with a sign between them.
fn after_range(sign: u8, bytes: &[u8]) -> Option<&[u8]> {
    let (_, rest) = number(bytes)?;
    match rest {
        [between, more @ ..] if *between == sign => Some(number(more)?.1),
        _ => Some(rest),
    }
}

/// Whether a line heads a part of a `diff`, as `5c5` or `1,2d0`.
fn heads_normal(line: &[u8]) -> bool {
    let Some([b'a' | b'c' | b'd', rest @ ..]) = after_range(b',', line) else {
        return false;
    };
    matches!(after_range(b',', rest), Some([]))
}

/// Whether these lines begin with a part of a `diff`.
fn begins_normal(lines: &[u8]) -> bool {
    match next_line(lines) {
        Some((head, [b'<' | b'>', ..])) => heads_normal(head),
        _ => false,
    }
}

/// Whether these lines begin with the head of a `diff -u`.
fn begins_unified(lines: &[u8]) -> bool {
    let Some((old, rest)) = next_line(lines) else {
        return false;
    };
    let Some((new, rest)) = next_line(rest) else {
        return false;
    };
    old.starts_with(b"--- ") && new.starts_with(b"+++ ") && rest.starts_with(b"@@ -")
}

/// Whether one of the lines is such a head.
fn any_begins(slip: Slip, lines: &[u8]) -> bool {
    let mut left = lines;
    while let Some((_, rest)) = next_line(left) {
        let begins = match slip {
            Slip::UnifiedDiff => begins_unified(left),
            Slip::NormalDiff => begins_normal(left),
            _ => false,
        };
        if begins {
            return true;
        }
        left = rest;
    }
    false
}

/// Whether a line is a command of `diff -f`, as `d3` or `c5 6`, and a text follows it.
fn forward_head(line: &[u8]) -> Option<bool> {
    let [letter @ (b'a' | b'c' | b'd'), rest @ ..] = line else {
        return None;
    };
    match after_range(b' ', rest) {
        Some([]) => Some(*letter != b'd'),
        _ => None,
    }
}

/// Whether all lines are commands of `diff -f` and their texts.
fn is_forward(script: &[u8]) -> bool {
    let mut left = script;
    let mut is_in_text = false;
    while let Some((line, rest)) = next_line(left) {
        if is_in_text {
            is_in_text = line != b".".as_slice();
        } else {
            match forward_head(line) {
                Some(has_text) => is_in_text = has_text,
                None => return false,
            }
        }
        left = rest;
    }
    !is_in_text
}

/// Which `diff` wrote a script, no command of which can be read.
pub fn diff_of(script: &[u8]) -> Option<Slip>
    ensures unread { IfSome result (λ kind. is_unread kind ≡ true) }
{
    if any_begins(Slip::UnifiedDiff, script) {
        Some(Slip::UnifiedDiff)
    } else if any_begins(Slip::NormalDiff, script) {
        Some(Slip::NormalDiff)
    } else if is_forward(script) {
        Some(Slip::ForwardDiff)
    } else {
        None
    }
}
