// The words of the command line, as the system has them.
use std::env;
use std::io::ErrorKind;

/// The words of the command line, the program's name first. The error says why they can't be had.
pub fn words(rt: &HostRuntime) -> Result<Vec<String>, ErrorKind> {
    match env::args(rt) {
        Ok(args) => args.collect(rt.alloc()).map_err(|_| ErrorKind::OutOfMemory),
        Err(error) => Err(error.kind()),
    }
}

/// The status where the words of the command line can't be had, which it reports on the errors: 5 where it is out of memory, 2 where a word is
/// no text.
pub fn without_words(rt: &HostRuntime, kind: ErrorKind) -> u8 {
    if kind == ErrorKind::OutOfMemory {
        let _ = eprintln!(rt; "out of memory");
        return 5;
    }
    let _ = eprintln!(rt;
        "error: a word of the command line is no text\n\nFor more information, try '--help'."
    );
    2
}
