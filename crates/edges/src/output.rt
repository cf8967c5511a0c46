// Standard output, as the tests print to it.
use std::io;
use std::rt::Stdout;

// Passes each piece on by itself. One that cannot be written is lost, and all goes on: each test is run, and each later piece is tried.
#[derive(Drop)]
pub struct Output<'a>(pub &'a mut Stdout);

impl io::Write for Output<'_> {
    fn write(&mut self, piece: &[u8]) -> io::Result<usize> {
        let _ = self.0.write_all(piece);
        Ok(piece.len())
    }

    fn flush(&mut self) -> io::Result<()> {
        Ok(())
    }
}
