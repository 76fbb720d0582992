// What stays from line to line, and what a line does to it.
use crate::buffer::Buffer;
use crate::calls::Answer;
use crate::commands::{self, Command};
use crate::judgement::Tally;
use crate::setting;
use settings::Settings;

#[derive(Drop)]
pub(crate) struct State<'a> {
    pub(crate) file: Buffer<'a>,
    pub(crate) held: Buffer<'a>,
    pub(crate) store: Buffer<'a>,
    pub(crate) bytes: Buffer<'a>,
    pub(crate) out: Buffer<'a>,
    pub(crate) settings: Settings,
    pub(crate) answer: Answer,
    pub(crate) tally: Tally,
}

impl State<'_> {
    // One line. An empty one, a comment and an unknown command do nothing.
    fn obey(&mut self, line: &[u8]) {
        let Some(command) = commands::command_of(line) else {
            return;
        };
        match command {
            Command::File(c) => setting::set_file(c, line, &mut self.file),
            Command::Bytes(c) => setting::set_bytes(c, line, &mut self.bytes, &self.out),
            Command::Out(c) => setting::set_out(c, line, &mut self.out, &self.held, &self.store),
            Command::Store(c) => setting::set_store(c, line, &mut self.store),
            Command::Held(c) => setting::set_held(c, line, &mut self.held),
            Command::Settings(c) => setting::set_settings(c, line, &mut self.settings),
            Command::Call(c) => self.answer = self.call(c, line),
            Command::Send => self.answer = self.send(line),
            Command::Case => self.judge(line),
        }
    }

    // All lines of a text.
    pub(crate) fn run(&mut self, text: &[u8]) {
        for line in text.split(|b| *b == b'\n') {
            self.obey(line);
        }
    }
}
