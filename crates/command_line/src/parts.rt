// The words for files and numbers.
ghost use Rattle.std.specs.Prelude.{◌≡◌, option_map};
ghost use Rattle.std.specs.List.{list_all};
ghost use Rattle.std.specs.Char.{is_ascii_digit};
ghost use Rattle.command_line.specs.Words.{is_file_name, file_in, changes_in, is_number, number_in};

// The most digits of a number.
const MOST_DIGITS: usize = 20;

fn names_file(word: &str) -> bool
    ensures { result ≡ is_file_name word.now }
{
    !word.is_empty() && !word.starts_with("-")
}

pub fn read_file(word: &str) -> Option<&str>
    ensures { option_map (λ f. f.now) result ≡ file_in word.now }
{
    if names_file(word) { Some(word) } else { None }
}

/// A file of changes, or no such file where the word is a dash.
pub fn read_changes(word: &str) -> Option<Option<&str>>
    ensures { option_map (option_map (λ f. f.now)) result ≡ changes_in word.now }
{
    if word == "-" {
        return Some(None);
    }
    if names_file(word) {
        Some(Some(word))
    } else {
        None
    }
}

fn are_digits(bytes: &[u8]) -> bool
    ensures { result ≡ list_all is_ascii_digit bytes.now }
{
    bytes.iter().all(|b| b.is_ascii_digit())
}

fn is_numeral(word: &str) -> bool
    ensures { result ≡ is_number word.now }
{
    !word.is_empty() && word.len() <= MOST_DIGITS && are_digits(word.as_bytes())
}

pub fn read_number(word: &str, least: u64, greatest: u64) -> Option<u64>
    ensures { result ≡ number_in least greatest word.now }
{
    if !is_numeral(word) {
        return None;
    }
    match word.parse::<u64>() {
        Ok(number) if least <= number && number <= greatest => Some(number),
        _ => None,
    }
}

pub fn read_count(word: &str, least: u32, greatest: u32) -> Option<u32>
    ensures { result ≡ number_in least greatest word.now }
{
    match read_number(word, u64::from(least), u64::from(greatest)) {
        Some(number) => Some(number as u32),
        None => None,
    }
}
