// Runs a file of cases from standard input, and writes a line for each: reference/README.md describes the language.
#![tactic(auto)]

use buffer::Buffer;
use calls::Answer;
use judgement::Tally;
use settings::Settings;
use state::State;

mod buffer;
mod calls;
mod commands;
mod digests;
mod generator;
mod judgement;
mod lines;
mod numbers;
mod setting;
mod state;
mod tokens;
mod transmission;

// What the settings are at the start: nothing, and edition 2 in row order.
const START: Settings = Settings {
    resource: 0,
    kind: 0,
    update: 0,
    protection: 0,
    rows: 0,
    size: 0,
    edition: 2,
    order: 0,
};

// Reads the text and runs it. Arrays are lent whole, so that nothing has to be known of their lengths.
fn run_input(
    text: &mut [u8; 262144],
    file: &mut [u8; 1048577],
    held: &mut [u8; 256],
    store: &mut [u8; 262144],
    bytes: &mut [u8; 8192],
    out: &mut [u8; 131072],
) -> Tally {
    let n = io::read_full(0, text);
    let mut state = State {
        file: Buffer::new(file),
        held: Buffer::new(held),
        store: Buffer::new(store),
        bytes: Buffer::new(bytes),
        out: Buffer::new(out),
        settings: START,
        answer: Answer::Accepted(0),
        tally: Tally { cases: 0, wrong: 0 },
    };
    state.run(buffer::first(n, text));
    state.tally
}

fn main() {
    let mut text = [0u8; 262144];
    let mut file = [0u8; 1048577];
    let mut held = [0u8; 256];
    let mut store = [0u8; 262144];
    let mut bytes = [0u8; 8192];
    let mut out = [0u8; 131072];
    let tally = run_input(
        &mut text, &mut file, &mut held, &mut store, &mut bytes, &mut out,
    );
    io::print_decimal(1, tally.cases);
    io::write_all(1, b" cases, ");
    io::print_decimal(1, tally.wrong);
    io::write_all(1, b" wrong\n");
}
