mod calls;
mod faults;
mod reopening;
mod rows;
mod served;
mod solo_stops;
mod stops;
mod twice;
