//! The words of the command line.

ghost use Rattle.std.specs.Prelude.{◌≡◌, map, string_bytes};
ghost use Rattle.std.specs.Option.{option_map};
ghost use Rattle.nuit_lib.specs.declared.words.Verb.TheVariants as verb_variant;
ghost use Rattle.nuit_lib.specs.Asked.{asked, verb_on};
ghost use Rattle.nuit_lib.specs.Words.{command_of, steps_of};

use nu_text::leading_decimal;

/// What a command does with its file.
#[derive(Clone, Copy)]
pub(crate) enum Verb {
    Build,
    /// With the number of steps that it takes at most.
    Run { steps: u64 },
}

const USUAL_STEPS: u64 = 100_000_000;

/// The command of the words and its file, where they have one of the forms.
pub(crate) fn command(words: &[String]) -> Option<(Verb, &str)>
    ensures { option_map (λ c. asked c.0 c.1.now) result ≡ command_of (map string_bytes words.now) }
{
    match words {
        [word, file] => Some((plain_verb(word.as_str())?, file.as_str())),
        [word, file, steps] if word.as_str() == "run" => Some((
            run(steps.as_str())?,
            file.as_str(),
        )),
        _ => None,
    }
}

// The verb of a command without a number of steps.
fn plain_verb(word: &str) -> Option<Verb>
    ensures { result ≡ verb_on word.now }
{
    if word == "build" {
        return Some(Verb::Build);
    }
    if word == "run" {
        return Some(Verb::Run { steps: USUAL_STEPS });
    }
    None
}

// A run of so many steps.
fn run(steps: &str) -> Option<Verb>
    ensures { result ≡ option_map verb_variant.Run (steps_of steps.now) }
{
    Some(Verb::Run {
        steps: decimal(steps)?,
    })
}

const MOST_STEPS: u128 = (1 << 64) - 1;

// The number below 2^64 whose decimal the word is.
fn decimal(word: &str) -> Option<u64>
    ensures { result ≡ steps_of word.now }
{
    let Some((value, rest)) = leading_decimal(word.as_bytes()) else {
        return None;
    };
    if rest.len() > 0 {
        return None;
    }
    if value > MOST_STEPS {
        return None;
    }
    Some(value as u64)
}
