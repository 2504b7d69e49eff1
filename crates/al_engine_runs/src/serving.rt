// Sessions of bounded length over a library of the small language.
use crate::files::ToyFiles;
use crate::predefined::Predefined;
use al_base::NoMemory;
use al_engine_toy::Toy;
use al_session::{Counted, Device, Ended, Served};
use al_session_served::serve_within;
use std::alloc::Global;
use std::io;
use std::io::Read;

/// A reader that gives at most so many bytes at a call.
#[derive(Drop)]
struct Short<D> {
    inner: D,
    most: usize,
}

impl<D: Read> Read for Short<D> {
    ghost remaining = { λ s. D.remaining s.inner };

    fn read(&mut self, buffer: &mut [u8]) -> io::Result<usize> {
        let most = self.most.max(1).min(buffer.len());
        self.inner.read(&mut buffer[..most])
    }
}

/// The number at the start of a string, and what follows it.
fn number_first(text: &str) -> (u64, &str) {
    let (word, after) = text.split_once(' ').unwrap_or((text, ""));
    (word.parse::<u64>().unwrap_or(0), after)
}

/// The commands in a string in which a vertical bar is written for each end of a line.
fn commands_of(alloc: Global, text: &str) -> Result<Vec<u8>, NoMemory> {
    let mut bytes = Vec::new(alloc);
    for byte in text.as_bytes() {
        bytes.push(if *byte == b'|' { b'\n' } else { *byte })?;
    }
    Ok(bytes)
}

fn ended_text(ended: Result<Ended, Device>) -> &'static str {
    match ended {
        Ok(Ended::Quit) => "served\n",
        Ok(Ended::BadLength) => "bad length\n",
        Err(Device::Read) => "no more reads\n",
        Err(Device::Write) => "no more writes\n",
    }
}

/// The replies of a session, and how it ended. `COMMANDS PULLS MOST TEXT` are the greatest number of commands, of calls of the reader, and of bytes
/// for each call, and then the commands.
pub(crate) fn serve(
    alloc: Global,
    library: &mut Served<ToyFiles, Toy, Predefined>,
    words: &str,
) -> Result<Vec<u8>, NoMemory> {
    let (commands, words) = number_first(words);
    let (pulls, words) = number_first(words);
    let (most, text) = number_first(words);
    let bytes = commands_of(alloc, text)?;
    let most = most as usize;
    let inner = bytes.as_slice();
    let mut reader = Counted::new(Short { inner, most });
    let mut writer = Counted::new(Vec::new(alloc));
    let ended = serve_within(
        alloc,
        &mut reader,
        &mut writer,
        library,
        100,
        commands,
        pulls,
    );
    let mut replies = writer.into_inner();
    replies.extend_from_slice(ended_text(ended).as_bytes())?;
    Ok(replies)
}
