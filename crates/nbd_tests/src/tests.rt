mod doors;
mod handshakes;
mod plain;
mod sessions;
