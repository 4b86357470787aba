//! Tests over nodes and hand-made messages.

mod chains;
mod inputs;
mod masters;
mod published;
mod rules;
mod strangers;
