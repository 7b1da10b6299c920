mod turns;
mod worker;
