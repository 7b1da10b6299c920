mod accounts;
mod calls;
mod forged;
mod runs;
mod spoiled;
