// Packing a file, packet by packet: document 01, section 4.
#![tactic(auto)]

ghost use Rattle.std.specs.Prelude.{◌≡◌, true, ◌+◌, ◌≤◌, ◌<◌, length, take, drop};
ghost use Rattle.std.proofs.lemmas.List.Edits.{sets};
ghost use Rattle.settings.specs.Settings.{settings_fit, house};
ghost use Rattle.pack.specs.Pack.{largest_file, coded_length, count_of, payload_of, header_for, packet_of, written, pack_of, Packs};
ghost use Rattle.pack.specs.Inner.{payload_length, plan_of, Packable, coded_rows, RunFits};

use packet::Packet;
use refusals::Refusal;
use settings::Settings;

// The longest file.
const LARGEST_FILE: usize = 16777216;

// The bytes that are sent of a file of `len` bytes: the file itself, or its coded rows.
fn coded_length(settings: Settings, len: usize) -> usize
    requires { (settings_fit settings ≡ true) × (len ≤ largest_file) }
    ensures { result ≡ coded_length settings len }
{
    if settings.protection == 0 {
        return len;
    }
    255 * layout::rows_of(settings.rows, len)
}

// The first of the refusals 17, 23, 25, 6; or the count of packets of a file of `len` bytes, and the length of the payload of packet `number`.
fn judge(settings: Settings, len: usize, number: u32) -> Result<(u32, usize), Refusal>
    ensures { result ≡ plan_of settings len number }
{
    if !fitting::settings_fit(settings) {
        return Err(Refusal::Field);
    }
    if len == 0 {
        return Err(Refusal::Size);
    }
    if LARGEST_FILE < len {
        return Err(Refusal::Size);
    }
    let coded = coded_length(settings, len);
    let size = settings.size as usize;
    let count = words::over(coded, size);
    if 1048575 < count {
        return Err(Refusal::Count);
    }
    if count <= number as usize {
        return Err(Refusal::Number);
    }
    Ok((
        count as u32,
        words::lesser(size, coded - number as usize * size),
    ))
}

// The header of a packet with a payload of `size` bytes, with the spare bits of the edition, at the start of `out`.
fn put_header(settings: Settings, number: u32, count: u32, size: usize, out: &mut [u8])
    requires { (size ≤ 4077) × (14 ≤ length out.old) }
    ensures { out.new ≡ sets out.old 0 (header_for settings count number size) }
{
    let head = heading::header(Packet {
        resource: settings.resource,
        number: number,
        update: settings.update,
        length: (Packet::HEADER + size + Packet::CRC) as u16,
        count: count,
        kind: settings.kind,
        protection: settings.protection,
        rows: settings::rows_sent(settings),
        reserved: edition::spare_of(settings.edition).reserved,
    });
    slices::copy_in(out, 0, &head);
}

// Of the `left` rows from row q of the coded file on those that lie in its table, at byte `at` of `out`. How many they are.
fn put_run(file: &[u8], m: usize, q: usize, left: usize, out: &mut [u8], at: usize) -> usize
    requires { (0 < left) × RunFits file.now m q left (length out.old) at }
    ensures { (0 < result) × (result ≤ left) × (out.new ≡ sets out.old at (coded_rows file.now m q result)) }
{
    let n = left.min(m - q % m);
    // It serves and has room, so nothing is refused.
    let _ = filling::put_rows(file, m, layout::row_start(m, q), n, &mut out[at..]);
    n
}

// Rows first, first + 1, .., `count` of them, of the coded file, at the start of `out`.
fn put_coded(file: &[u8], m: usize, first: usize, count: usize, out: &mut [u8])
    requires { RunFits file.now m first count (length out.old) 0 }
    ensures { out.new ≡ sets out.old 0 (coded_rows file.now m first count) }
{
    let mut done: usize = 0;
    // By while, since each step is as many rows as were put.
    while done < count {
        done += put_run(file, m, first + done, count - done, out, done * 255);
    }
}

// The payload of packet `number`, `size` bytes, at the start of `out`.
fn put_payload(file: &[u8], settings: Settings, number: u32, size: usize, out: &mut [u8])
    requires { Packable settings (length file.now) number × (size ≡ payload_length settings (length file.now) number) × (size ≤ length out.old) }
    ensures { out.new ≡ sets out.old 0 (payload_of settings file.now number) }
{
    let from = number as usize * settings.size as usize;
    if settings.protection == 0 {
        slices::copy_in(out, 0, &file[from..from + size]);
        return;
    }
    let rows = settings.rows as usize;
    if settings.order == 1 {
        // This too.
        let _ = laying::put_columns(file, rows, from, size, out);
        return;
    }
    put_coded(file, rows, from / 255, size / 255, out);
}

// Header, payload and CRC of packet `number`, whose payload has `size` bytes; refused, and nothing written, where `out` is too short. The payload is written
// straight behind the header.
fn put_packet(
    file: &[u8],
    settings: Settings,
    number: u32,
    count: u32,
    size: usize,
    out: &mut [u8],
) -> Result<usize, Refusal>
    requires { Packable settings (length file.now) number × (count ≡ count_of settings (length file.now)) × (size ≡ payload_length settings (length file.now) number) }
    ensures { Packs (written (packet_of settings file.now number) out.old) result out.new }
{
    let body = Packet::HEADER;
    let end = body + size;
    if out.len() < end + Packet::CRC {
        return Err(Refusal::Output);
    }
    put_header(settings, number, count, size, out);
    put_payload(file, settings, number, size, &mut out[body..]);
    // There is room for the CRC: asked above.
    let _ = sealing::seal(out, end);
    Ok(end + Packet::CRC)
}

// Writes packet `number` of the file under these settings to the start of `out`, and gives its length. Refused, and nothing written, where a setting is out of
// range, the file is empty or too long, it has too many packets, there is no such packet, or `out` is too short, in this order.
pub fn pack(file: &[u8], settings: Settings, number: u32, out: &mut [u8]) -> Result<usize, Refusal>
    ensures { Packs (pack_of file.now settings number out.old) result out.new }
{
    let (count, size) = judge(settings, file.len(), number)?;
    put_packet(file, settings, number, count, size, out)
}

// The same under the house setting.
pub fn pack_house(
    file: &[u8],
    resource: u16,
    kind: u8,
    update: u8,
    number: u32,
    out: &mut [u8],
) -> Result<usize, Refusal>
    ensures { Packs (pack_of file.now (house resource kind update) number out.old) result out.new }
{
    pack(file, settings::house(resource, kind, update), number, out)
}
