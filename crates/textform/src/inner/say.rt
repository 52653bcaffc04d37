// What a program says: its text on standard output, and a line on standard error where something failed.
use std::io::Print;

// A line on standard error. Whether it comes through is nothing that the program could tell.
pub fn failure(stderr: &impl Print, line: &[u8]) {
    let _ = stderr.write_all(line);
}

// The text on standard output, or a failure.
pub fn text(stdout: &impl Print, stderr: &impl Print, bytes: &[u8]) {
    if stdout.write_all(bytes).is_err() {
        failure(stderr, b"write failed\n");
    }
}
