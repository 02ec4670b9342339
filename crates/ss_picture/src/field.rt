ghost use Rattle.std.specs.Prelude.{◌≡◌};
ghost use Rattle.ss_picture.specs.Pictures.{decimals_at as decimals_of, leading_field, stars as stars_of};

/// A field of a picture: a maximal run of asterisks, and where a period and then an asterisk follow
/// it directly, the period and the run after it too. Fields are found from the left.
#[derive(Clone, Copy, Debug, PartialEq, Eq)]
pub struct Field {
    /// Its length in bytes, the period among them.
    pub width: usize,
    /// How many asterisks follow its period; 0 where it has none.
    pub decimals: usize,
}

// How many asterisks these bytes begin with.
fn stars(bytes: &[u8]) -> usize
    ensures { result ≡ stars_of bytes.now }
{
    for (place, byte) in bytes.iter().enumerate() {
        if *byte != b'*' {
            return place;
        }
    }
    bytes.len()
}

// How many asterisks follow a period that these bytes begin with.
fn decimals_at(bytes: &[u8]) -> usize
    ensures { result ≡ decimals_of bytes.now }
{
    if bytes.is_empty() || bytes[0] != b'.' {
        return 0;
    }
    stars(&bytes[1..])
}

// The field that these bytes begin with.
pub(crate) fn first_field(bytes: &[u8]) -> Field
    ensures { result ≡ leading_field bytes.now }
{
    let whole = stars(bytes);
    let decimals = decimals_at(&bytes[whole..]);
    if decimals == 0 {
        Field {
            width: whole,
            decimals,
        }
    } else {
        Field {
            width: whole + 1 + decimals,
            decimals,
        }
    }
}
