mod agreement;
mod both;
mod chains;
mod dice;
mod faults;
mod refusals;
