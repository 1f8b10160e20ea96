//! The modes of the program, chosen by its first word.

ghost use Rattle.click_prog.specs.Modes.{IsModeOf};

/// A mode of the program.
///
/// `Calls` and `Pcap` have the words of their own command line, which begin with the word that
/// names the mode.
#[derive(Clone, Copy, Debug)]
pub enum Mode<'a> {
    /// Serves sessions, or draws a picture.
    Sessions,
    /// Answers calls. The first word is `--calls`.
    Calls(&'a [String]),
    /// Sends a capture through the router. The first word is `--pcap`.
    Pcap(&'a [String]),
}

/// Returns the mode for the words of a command line, which begin with the program's name.
pub fn mode_of<'a>(words: &'a [String]) -> Mode<'a>
    ensures { IsModeOf words.now result }
{
    let Some((_name, behind)) = words.split_first() else {
        return Mode::Sessions;
    };
    let Some(first) = behind.first() else {
        return Mode::Sessions;
    };
    match first.as_str() {
        "--calls" => Mode::Calls(behind),
        "--pcap" => Mode::Pcap(behind),
        _ => Mode::Sessions,
    }
}
