//! The socket of a connection, with a watch over what is read from it.

use crate::chunk_watch::ChunkWatch;
use mio::net::TcpStream;
use std::io::{self, Read};

/// A socket whose input is shown to a watch.
#[derive(Drop)]
pub(crate) struct WatchedStream {
    pub(crate) socket: TcpStream,
    watch: ChunkWatch,
}

impl WatchedStream {
    /// Returns the socket with a watch that has seen nothing.
    pub(crate) fn new(socket: TcpStream) -> WatchedStream {
        WatchedStream {
            socket,
            watch: ChunkWatch::new(),
        }
    }

    /// Returns whether a chunk has announced more bytes than a body may have.
    pub(crate) fn has_long_chunk(&self) -> bool {
        self.watch.is_too_long()
    }
}

impl Read for WatchedStream {
    fn read(&mut self, piece: &mut [u8]) -> io::Result<usize> {
        let count = self.socket.read(piece)?;
        self.watch.note(&piece[..count]);
        Ok(count)
    }
}
