// The picture, line by line.
ghost use Rattle.std.specs.Prelude.{◌≤◌};

use std::io;
use std::io::Write;

// Noise from a fixed seed.
#[derive(Drop)]
struct Noise {
    seed: u64,
}

impl Noise {
    const START: Noise = Noise { seed: 20210 };

    // A sample of it: the upper 16 of the next number's 31 bits.
    fn sample(&mut self) -> u64
        ensures { result ≤ 65535 }
    {
        self.seed = (self.seed % 2147483648 * 1103515245 + 12345) % 2147483648;
        self.seed / 32768 % 65536
    }
}

// What a column shows.
#[derive(Clone, Copy)]
enum Panel {
    Ramp,
    Bars,
    Slope,
    Noise,
}

// The panel of a column: four of them side by side.
fn shown(j: u32, row: u32) -> Panel {
    match (j as u64 * 4).checked_div(row as u64) {
        None | Some(0) => Panel::Ramp,
        Some(1) => Panel::Bars,
        Some(2) => Panel::Slope,
        Some(_) => Panel::Noise,
    }
}

// From black to white, down the lines.
fn ramp(i: u32, lines: u32) -> u64 {
    (i as u64 * 65535).checked_div(lines as u64).unwrap_or(0)
}

// Bars of twelve lines, nearly black and nearly white.
fn bar(i: u32) -> u64 {
    if i / 12 % 2 == 0 { 3000 } else { 62000 }
}

// A ramp that begins again and again, across lines and columns.
fn slope(i: u32, j: u32) -> u64 {
    (i as u64 * 31 + j as u64 * 97) % 65536
}

// What a panel shows at a line and a column, without its grain.
fn plain(i: u32, lines: u32, j: u32, row: u32, noise: u64) -> u64 {
    match shown(j, row) {
        Panel::Ramp => ramp(i, lines),
        Panel::Bars => bar(i),
        Panel::Slope => slope(i, j),
        Panel::Noise => noise,
    }
}

// With a grain of one part in 64.
fn grained(x: u64, noise: u64) -> u16 {
    ((x % 65536 * 63 + noise % 65536) / 64 % 65536) as u16
}

// The samples of a line; the noise goes on behind them.
fn line(i: u32, lines: u32, noise: &mut Noise, samples: &mut [u16]) {
    let row = samples.len();
    if 32768 < row {
        return;
    }
    for (j, sample) in samples.iter_mut().enumerate() {
        let grain = noise.sample();
        *sample = grained(plain(i, lines, j as u32, row as u32, grain), grain);
    }
}

// All lines, each written as soon as it is made.
pub(crate) fn lines(
    rt: HostRuntime,
    lines: u32,
    samples: &mut [u16],
    bytes: &mut [u8],
) -> io::Result<()> {
    let mut noise = Noise::START;
    for i in 0..lines {
        line(i, lines, &mut noise, samples);
        frame_files::encode(samples, bytes);
        Write::write_all(&mut rt.stdout(), bytes)?;
    }
    Ok(())
}
