// The commands: reference/README.md says what each does. Those of one kind are an enum of their own.
use crate::tokens;

#[derive(Clone, Copy)]
pub(crate) enum Command {
    File(OnFile),
    Bytes(OnBytes),
    Out(OnOut),
    Store(OnStore),
    Held(OnHeld),
    Settings(OnSettings),
    Call(Call),
    Send,
    Case,
}

#[derive(Clone, Copy)]
pub(crate) enum OnFile {
    Generate,
    Put,
    Value,
}

#[derive(Clone, Copy)]
pub(crate) enum OnBytes {
    Pairs,
    Random,
    Fill,
    Put,
    Flip,
    Cut,
    Grow,
    Take,
    Append,
    Seal,
    Damage,
    Line,
    Insert,
    Drop,
    Swap,
}

#[derive(Clone, Copy)]
pub(crate) enum OnOut {
    Fill,
    ShowHeld,
    ShowStore,
}

#[derive(Clone, Copy)]
pub(crate) enum OnStore {
    Fill,
    Poke,
}

#[derive(Clone, Copy)]
pub(crate) enum OnHeld {
    Zeros,
    Place,
}

#[derive(Clone, Copy)]
pub(crate) enum OnSettings {
    All,
    Edition,
    Order,
}

// A call of the library: one that takes no record, or one that does.
#[derive(Clone, Copy)]
pub(crate) enum Call {
    Plain(Plain),
    Record(Record),
}

#[derive(Clone, Copy)]
pub(crate) enum Plain {
    Crc,
    Encode,
    Repair,
    Read,
    ReadHeader,
    Describe,
    Compose,
    Pack,
    PackAs,
    PackHouse,
}

#[derive(Clone, Copy)]
pub(crate) enum Record {
    Open,
    OpenAs,
    OpenHouse,
    Offer,
    Status,
    Hand,
    Close,
}

static COMMANDS: [(&[u8], Command); 47] = [
    (b"file", Command::File(OnFile::Generate)),
    (b"file-put", Command::File(OnFile::Put)),
    (b"value", Command::File(OnFile::Value)),
    (b"bytes", Command::Bytes(OnBytes::Pairs)),
    (b"random", Command::Bytes(OnBytes::Random)),
    (b"fill", Command::Bytes(OnBytes::Fill)),
    (b"put", Command::Bytes(OnBytes::Put)),
    (b"flip", Command::Bytes(OnBytes::Flip)),
    (b"cut", Command::Bytes(OnBytes::Cut)),
    (b"grow", Command::Bytes(OnBytes::Grow)),
    (b"take", Command::Bytes(OnBytes::Take)),
    (b"append", Command::Bytes(OnBytes::Append)),
    (b"seal", Command::Bytes(OnBytes::Seal)),
    (b"damage", Command::Bytes(OnBytes::Damage)),
    (b"line", Command::Bytes(OnBytes::Line)),
    (b"insert", Command::Bytes(OnBytes::Insert)),
    (b"drop", Command::Bytes(OnBytes::Drop)),
    (b"swap", Command::Bytes(OnBytes::Swap)),
    (b"out", Command::Out(OnOut::Fill)),
    (b"store", Command::Store(OnStore::Fill)),
    (b"poke", Command::Store(OnStore::Poke)),
    (b"held", Command::Held(OnHeld::Zeros)),
    (b"place", Command::Held(OnHeld::Place)),
    (b"settings", Command::Settings(OnSettings::All)),
    (b"edition", Command::Settings(OnSettings::Edition)),
    (b"order", Command::Settings(OnSettings::Order)),
    (b"show-held", Command::Out(OnOut::ShowHeld)),
    (b"show-store", Command::Out(OnOut::ShowStore)),
    (b"crc", Command::Call(Call::Plain(Plain::Crc))),
    (b"encode", Command::Call(Call::Plain(Plain::Encode))),
    (b"repair", Command::Call(Call::Plain(Plain::Repair))),
    (b"read", Command::Call(Call::Plain(Plain::Read))),
    (
        b"read-header",
        Command::Call(Call::Plain(Plain::ReadHeader)),
    ),
    (b"describe", Command::Call(Call::Plain(Plain::Describe))),
    (b"compose", Command::Call(Call::Plain(Plain::Compose))),
    (b"pack", Command::Call(Call::Plain(Plain::Pack))),
    (b"pack-as", Command::Call(Call::Plain(Plain::PackAs))),
    (b"pack-house", Command::Call(Call::Plain(Plain::PackHouse))),
    (b"open", Command::Call(Call::Record(Record::Open))),
    (b"open-as", Command::Call(Call::Record(Record::OpenAs))),
    (
        b"open-house",
        Command::Call(Call::Record(Record::OpenHouse)),
    ),
    (b"offer", Command::Call(Call::Record(Record::Offer))),
    (b"status", Command::Call(Call::Record(Record::Status))),
    (b"hand", Command::Call(Call::Record(Record::Hand))),
    (b"close", Command::Call(Call::Record(Record::Close))),
    (b"send", Command::Send),
    (b"case", Command::Case),
];

// The command that a line names.
pub(crate) fn command_of(line: &[u8]) -> Option<Command> {
    tokens::meaning(&COMMANDS, tokens::word(line, 0))
}
