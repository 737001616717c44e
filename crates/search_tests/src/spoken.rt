//! Calls from short texts.
use kinds::written::Written;
use search::call::Call;

// The word of this number, counted from 0.
fn word(text: &str, number: usize) -> Option<&str> {
    text.split_whitespace().nth(number)
}

fn variable_of(text: &str) -> Option<u16> {
    word(text, 1)?.parse::<u16>().ok()
}

fn side_of(text: &str) -> Option<bool> {
    match word(text, 2)? {
        "on" => Some(true),
        "off" => Some(false),
        _ => None,
    }
}

fn weigh_of<K: Written>(text: &str) -> Option<Call<K>> {
    let variable = variable_of(text)?;
    let on = K::read(word(text, 2)?.as_bytes()).ok()?;
    let off = K::read(word(text, 3)?.as_bytes()).ok()?;
    Some(Call::Weigh { variable, on, off })
}

/// The call that a text says: `hold 1 on`, `release 1`, `weigh 2 3 7`, `trial 1 off`, `figure`,
/// `bound` or `select`.
pub(crate) fn call_of<K: Written>(text: &str) -> Option<Call<K>> {
    match word(text, 0)? {
        "hold" => Some(Call::Hold {
            variable: variable_of(text)?,
            on: side_of(text)?,
        }),
        "release" => Some(Call::Release {
            variable: variable_of(text)?,
        }),
        "weigh" => weigh_of(text),
        "trial" => Some(Call::Trial {
            variable: variable_of(text)?,
            on: side_of(text)?,
        }),
        "figure" => Some(Call::Figure),
        "bound" => Some(Call::Bound),
        "select" => Some(Call::Select),
        _ => None,
    }
}
