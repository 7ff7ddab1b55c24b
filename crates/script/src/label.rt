//! The form of labels.
ghost use Rattle.std.specs.Prelude.{◌≡◌};
ghost use Rattle.std.specs.List.{list_all};
ghost use Rattle.script.specs.Rules.{is_label, is_label_byte, is_letter};

/// Whether a word has the form of a label: 1 to 16 of the characters a to z, 0 to 9, `_` and `-`, the first a letter.
pub fn is_label(word: &[u8]) -> bool
    ensures { result ≡ is_label word.now }
{
    match word {
        [] => false,
        [first, rest @ ..] => {
            let are_label_bytes = are_label_bytes(rest);
            (is_letter(*first) && rest.len() < 16) && are_label_bytes
        }
    }
}

fn are_label_bytes(bytes: &[u8]) -> bool
    ensures { result ≡ list_all is_label_byte bytes.now }
{
    bytes.iter().all(|byte| is_label_byte(*byte))
}

fn is_letter(byte: u8) -> bool
    ensures { result ≡ is_letter byte }
{
    97 <= byte && byte <= 122
}

fn is_label_byte(byte: u8) -> bool
    ensures { result ≡ is_label_byte byte }
{
    (is_letter(byte) || (48 <= byte && byte <= 57)) || (byte == 95 || byte == 45)
}
