//! How many reads an entry may take.

/// How many words of the bank the entry with this number may read, by words `N=M`.
pub(crate) fn most_reads(stated: &str, number: usize) -> u32 {
    for word in stated.split_whitespace() {
        if let Some((entry, most)) = word.split_once('=') {
            if entry.parse::<usize>() == Ok(number) {
                return most.parse().unwrap_or(0);
            }
        }
    }
    0
}
