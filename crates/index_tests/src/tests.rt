mod agreement;
mod dice;
mod list;
mod many;
mod overlapping;
mod placing;
mod same;
mod steps;
