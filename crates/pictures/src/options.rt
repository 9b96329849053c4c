// The options of a picture.
ghost use Rattle.std.specs.Prelude.{◌≡◌, map, Some, string_bytes};
ghost use Rattle.pictures.specs.Options.{standard, taken, finished, options_in, option_error_text};

use std::error::Error;
use std::fmt;
use words::whole_number;

// The level that is drawn alone, how many pixels wide the picture is, and whether bands are drawn.
#[derive(Clone, Copy, PartialEq, Eq, Debug)]
pub struct Options {
    pub level: Option<usize>,
    pub pixels: u16,
    pub bands: bool,
}

// Why arguments are no options: one of them is none, or the number that belongs behind one is missing or is none.
#[derive(Clone, Copy, PartialEq, Eq, Debug)]
pub enum OptionError {
    Unknown,
    Level,
    Width,
}

impl fmt::Display for OptionError {
    ghost output = { λ error. Some (option_error_text error) };

    fn fmt<W: fmt::Write>(&self, f: &mut fmt::Formatter<W>) -> fmt::Result {
        match self {
            Self::Unknown => f.write_str("unknown option"),
            Self::Level => f.write_str("--level K: a whole number is expected"),
            Self::Width => f.write_str("--width PX: a whole number from 1 to 65535 is expected"),
        }
    }
}

impl Error for OptionError {}

// What the next argument is: an option, or the number behind one.
#[derive(Clone, Copy)]
enum Due {
    Name,
    Level,
    Width,
}

// The options as far as they are read.
#[derive(Clone, Copy)]
struct Draft {
    due: Due,
    options: Options,
}

impl Draft {
    // Takes an argument.
    fn take(self, word: &[u8]) -> Result<Draft, OptionError>
        ensures { result ≡ taken self.due self.options word.now }
    {
        let mut options = self.options;
        let due = match self.due {
            Due::Level => {
                let level = whole_number(word).ok_or(OptionError::Level)?;
                options.level = Some(level as usize);
                Due::Name
            }
            Due::Width => {
                let Some(pixels @ 1..=65535) = whole_number(word) else {
                    return Err(OptionError::Width);
                };
                options.pixels = pixels as u16;
                Due::Name
            }
            Due::Name if word == b"--level".as_slice() => Due::Level,
            Due::Name if word == b"--width".as_slice() => Due::Width,
            Due::Name if word == b"--tolerance".as_slice() => {
                options.bands = true;
                Due::Name
            }
            Due::Name => return Err(OptionError::Unknown),
        };
        Ok(Draft { due, options })
    }

    // The options, if no number is missing.
    fn finish(self) -> Result<Options, OptionError>
        ensures { result ≡ finished self.due self.options }
    {
        match self.due {
            Due::Name => Ok(self.options),
            Due::Level => Err(OptionError::Level),
            Due::Width => Err(OptionError::Width),
        }
    }
}

// The options that arguments give. Of an option that is given twice the last one counts.
pub fn read_options(words: &[String]) -> Result<Options, OptionError>
    ensures { result ≡ options_in (map string_bytes words.now) }
{
    let mut draft = Draft {
        due: Due::Name,
        options: Options {
            level: None,
            pixels: 1000,
            bands: false,
        },
    };
    for word in words {
        draft = draft.take(word.as_bytes())?;
    }
    draft.finish()
}
