//! What only tests show of starts, pipes and who goes first.
mod asking;
mod shown;
mod starts;
