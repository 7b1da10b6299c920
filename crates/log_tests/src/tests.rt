mod layout;
mod pools;
mod spindles;
mod views;
