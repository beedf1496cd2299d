mod dice;
mod faults;
mod plain;
mod random;
