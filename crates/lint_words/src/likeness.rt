//! Words that may be meant by other words.

fn is_like_byte(a: u8, b: u8) -> bool {
    a.eq_ignore_ascii_case(&b)
}

// Whether two words of one length have two letters there that are exchanged.
fn are_exchanged(a: &[u8], b: &[u8], at: usize) -> bool {
    let next = at.saturating_add(1);
    a.len() == b.len() && a.get(at) == b.get(next) && a.get(next) == b.get(at)
}

/// Whether two words differ by case, and by one letter or two that are exchanged at most. Words of two letters and
/// fewer differ by case alone.
pub fn is_like(a: &[u8], b: &[u8]) -> bool {
    let front = a
        .iter()
        .zip(b.iter())
        .take_while(|(x, y)| is_like_byte(**x, **y))
        .count();
    let back = a
        .iter()
        .rev()
        .zip(b.iter().rev())
        .take_while(|(x, y)| is_like_byte(**x, **y))
        .count();
    let longer = a.len().max(b.len());
    let shorter = a.len().min(b.len());
    let wrong = longer.saturating_sub(shorter.min(front.saturating_add(back)));
    wrong == 0 || longer > 2 && (wrong == 1 || wrong == 2 && are_exchanged(a, b, front))
}
