//! Runs of the program over files in memory.

use disk_memory::MemoryHost;
use std::alloc::{AllocError, Global};

/// What a run answered, and the host after it.
#[derive(Drop)]
pub struct Run {
    pub status: u8,
    pub host: MemoryHost,
}

impl Run {
    /// Whether this text was printed, in which `/` stands for a line's end.
    pub fn has_printed(&self, alloc: Global, text: &str) -> Result<bool, AllocError> {
        let mut bytes = Vec::new(alloc);
        for byte in text.as_bytes() {
            bytes.push(if *byte == b'/' { b'\n' } else { *byte })?;
        }
        Ok(self.host.printed() == bytes.as_slice())
    }
}

/// A host with these files, whose calls of these numbers fail.
pub fn host_with(
    alloc: Global,
    files: &[(&str, &[u8])],
    failing: &[u64],
) -> Result<MemoryHost, AllocError> {
    let mut host = MemoryHost::new(alloc, true)?;
    for (name, bytes) in files {
        host.put_file(name, bytes)?;
    }
    host.fail_calls(failing)?;
    Ok(host)
}

/// Runs the program with these words.
pub fn run_words(alloc: Global, mut host: MemoryHost, words: &[&str]) -> Result<Run, AllocError> {
    let mut list = Vec::new(alloc);
    for word in words {
        list.push(String::from_str(alloc, word)?)?;
    }
    let status = qback_top::run_files(alloc, &list, &mut host);
    Ok(Run { status, host })
}

/// The same with the words of a text, in which a space stands between two.
pub fn run_text(alloc: Global, host: MemoryHost, words: &str) -> Result<Run, AllocError> {
    let list: Vec<&str> = words.split(' ').collect(alloc)?;
    run_words(alloc, host, &list)
}
