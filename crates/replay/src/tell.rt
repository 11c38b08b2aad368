// What the program writes: the first thing that does not agree and its line, or how many lines there were.

// A number that came is not the one to come.
#[derive(Clone, Copy)]
pub(crate) struct Difference {
    pub(crate) place: usize,
    pub(crate) came: u64,
    pub(crate) due: u64,
}

// How a replay ended, with the last line that was replayed.
#[derive(Clone, Copy)]
pub(crate) enum Ending {
    Agreed(u64),
    Differs(Difference, u64),
    Unfinished(u64),
}

// Words and the number after them. Where standard output takes nothing the program goes on.
fn say(rt: &HostRuntime, words: &[u8], n: u64) {
    let _ = rt.stdout().write_all(words);
    let _ = rt.stdout().print(n);
}

impl Difference {
    fn tell(self, rt: &HostRuntime) {
        say(rt, b"place ", self.place as u64);
        say(rt, b": came ", self.came);
        say(rt, b", to come ", self.due);
    }
}

impl Ending {
    pub(crate) fn tell(self, rt: &HostRuntime) {
        match self {
            Ending::Agreed(lines) => say(rt, b"all agreed, lines: ", lines),
            Ending::Differs(difference, line) => {
                difference.tell(rt);
                say(rt, b"; not agreed: line ", line);
            }
            Ending::Unfinished(line) => say(rt, b"; not agreed: line ", line),
        }
        let _ = rt.stdout().write_all(b"\n");
    }
}
