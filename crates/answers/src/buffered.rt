// Collects what is written in a lent buffer, which goes out through a writer where it is full.
ghost use Rattle.std.specs.Prelude.{◌≤◌, length};

use std::io;
use std::io::Write;

#[derive(Drop)]
pub struct Buffered<'a, W> {
    writer: &'a mut W,
    buffer: &'a mut [u8],
    // How many bytes wait at the buffer's start.
    waiting: usize,
    ghost in_buffer: { waiting ≤ length buffer.now },
}

impl<'a, W: Write> Buffered<'a, W> {
    pub fn new(writer: &'a mut W, buffer: &'a mut [u8]) -> Buffered<'a, W> {
        Buffered {
            writer,
            buffer,
            waiting: 0,
        }
    }

    // Writes out the bytes that wait.
    fn write_out(&mut self) -> io::Result<()> {
        self.writer.write_all(&self.buffer[..self.waiting])?;
        self.waiting = 0;
        Ok(())
    }
}

impl<W: Write> Write for Buffered<'_, W> {
    fn write(&mut self, bytes: &[u8]) -> io::Result<usize> {
        if self.waiting == self.buffer.len() {
            self.write_out()?;
        }
        let room = &mut self.buffer[self.waiting..];
        let n = bytes.len().min(room.len());
        room[..n].copy_from_slice(&bytes[..n]);
        self.waiting += n;
        Ok(n)
    }

    fn flush(&mut self) -> io::Result<()> {
        self.write_out()?;
        self.writer.flush()
    }
}
