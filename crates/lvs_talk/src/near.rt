//! Words that are nearly alike.

// How many bytes two words have in common at their front, capitals apart.
fn common_front(one: &[u8], other: &[u8]) -> usize {
    let mut count: usize = 0;
    for (a, b) in one.iter().zip(other.iter()) {
        if !a.eq_ignore_ascii_case(b) {
            return count;
        }
        count = count.saturating_add(1);
    }
    count
}

// How many bytes they have in common at their end.
fn common_end(one: &[u8], other: &[u8]) -> usize {
    let mut count: usize = 0;
    for (a, b) in one.iter().rev().zip(other.iter().rev()) {
        if !a.eq_ignore_ascii_case(b) {
            return count;
        }
        count = count.saturating_add(1);
    }
    count
}

/// Whether a word is another one but for a letter or two in one place, capitals apart, or its
/// beginning. One pass over each.
pub fn is_near(word: &str, other: &str) -> bool {
    let (one, two) = (word.as_bytes(), other.as_bytes());
    let front = common_front(one, two);
    let shared = front.saturating_add(common_end(one, two));
    let left = one.len().saturating_sub(shared);
    let right = two.len().saturating_sub(shared);
    let most = if one.len().min(two.len()) < 4 { 1 } else { 2 };
    let is_beginning = front >= 3 && front == one.len();
    is_beginning || (shared >= 1 && left <= most && right <= most)
}

/// The text beside a word in rows of words and texts.
pub fn beside(rows: &[(&'static str, &'static str)], word: &str) -> Option<&'static str> {
    for (key, text) in rows.iter() {
        if *key == word {
            return Some(text);
        }
    }
    None
}
