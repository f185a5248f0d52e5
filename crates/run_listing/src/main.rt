// Lists built-in captures, one after the other, each below a title and handed over in chunks of 7 bytes.
#![tactic(auto)]

use listing::Lister;
use script::printing::put;
use std::io;
use std::io::Write;

#[derive(Clone, Copy)]
struct Case {
    // A line.
    title: &'static [u8],
    capture: &'static [u8],
}

const CAPTURES: [Case; 7] = [
    Case {
        title: b"== empty\n",
        capture: b"",
    },
    Case {
        title: b"== every kind\n",
        capture: b"\x06\x01\x06\x02\x06\x03\x06\x04\x06\x05\x06\x06\x05\x01\x05\x02\x03*.*\x01\x0Blot7.csv\x003\x00\x02\x03ABC\x03\x01\x04\x01\x15\x03one\x15\x05R\x0044\x00\x18\x00\x10\x02hi",
    },
    Case {
        title: b"== drops\n",
        capture: b"\x05\x01\x00\x06\x01\xFF\x06\x07\x05\x03\x03\x02\x02\x01A\x04\x02\x06\x00AB\x04\x01",
    },
    Case {
        title: b"== resumes\n",
        capture: b"\x15\x05R\x0044\x00\x15\x07R\x0044\x00C\x00\x15\x0BR\x0012345678\x00",
    },
    Case {
        title: b"== not ready\n",
        capture: b"\x15\x04R\x0044\x15\x00\x15\x06R\x0044\x00C\x15\x0CR\x00123456789\x00\x15\x03R\x00\x00\x15\x08R\x0044\x00C\x00X",
    },
    Case {
        title: b"== malformed headers\n",
        capture: b"\x01\x00\x01\x03abc\x01\x06a/b\x003\x00\x01\x04a\x00x\x00",
    },
    Case {
        title: b"== headers with an option\n",
        capture: b"\x01\x05a\x003\x00z\x01\x0Da\x003\x005A214800\x00",
    },
];

// A packet each.
const PACKETS: [Case; 16] = [
    Case {
        title: b"== RR cut\n",
        capture: b"\x06\x01",
    },
    Case {
        title: b"== RF cut\n",
        capture: b"\x06\x02",
    },
    Case {
        title: b"== AF cut\n",
        capture: b"\x06\x03",
    },
    Case {
        title: b"== AT cut\n",
        capture: b"\x06\x04",
    },
    Case {
        title: b"== CA cut\n",
        capture: b"\x06\x05",
    },
    Case {
        title: b"== RT cut\n",
        capture: b"\x06\x06",
    },
    Case {
        title: b"== SI cut\n",
        capture: b"\x05\x01",
    },
    Case {
        title: b"== RI cut\n",
        capture: b"\x05\x02\x03*.*",
    },
    Case {
        title: b"== HD cut\n",
        capture: b"\x01\x0Blot7.csv\x003\x00",
    },
    Case {
        title: b"== DT cut\n",
        capture: b"\x02\x03ABC",
    },
    Case {
        title: b"== EF cut\n",
        capture: b"\x03\x01",
    },
    Case {
        title: b"== ET cut\n",
        capture: b"\x04\x01",
    },
    Case {
        title: b"== NR cut\n",
        capture: b"\x15\x03one",
    },
    Case {
        title: b"== RE cut\n",
        capture: b"\x15\x05R\x0044\x00",
    },
    Case {
        title: b"== CN cut\n",
        capture: b"\x18\x04stop",
    },
    Case {
        title: b"== TX cut\n",
        capture: b"\x10\x02hi",
    },
];

fn feed<W: Write>(out: &mut W, lister: Lister, s: &[u8]) -> io::Result<Lister> {
    let mut l = lister;
    let mut line = [0; 32];
    let mut rest = s;
    // A step takes as many bytes as it finds, so there is no count of turns to go by.
    while !rest.is_empty() {
        let got = l.step(fields::part(rest, 0, 7), &mut line);
        l = got.lister;
        rest = &rest[got.taken..];
        put(out, &line[..got.written])?;
    }
    Ok(l)
}

fn write_end<W: Write>(out: &mut W, lister: Lister) -> io::Result<()> {
    let mut last = [0; 72];
    let n = lister.end(&mut last);
    put(out, &last[..n])
}

// Writes the title and the header line.
fn start<W: Write>(out: &mut W, title: &[u8]) -> io::Result<Lister> {
    put(out, title)?;
    put(out, &listing::heading())?;
    Ok(Lister::new())
}

fn list<W: Write>(out: &mut W, title: &[u8], capture: &[u8]) -> io::Result<()> {
    let l = start(out, title)?;
    let done = feed(out, l, capture)?;
    write_end(out, done)
}

fn captures<W: Write>(out: &mut W) -> io::Result<()> {
    for Case { title, capture } in CAPTURES {
        list(out, title, capture)?;
    }
    Ok(())
}

// A packet cut behind each of its bytes but the last.
fn cuts<W: Write>(out: &mut W, title: &[u8], packet: &[u8]) -> io::Result<()> {
    for n in 1..packet.len() {
        list(out, title, &packet[..n])?;
    }
    Ok(())
}

fn packets<W: Write>(out: &mut W) -> io::Result<()> {
    for Case { title, capture } in PACKETS {
        cuts(out, title, capture)?;
    }
    Ok(())
}

// More bytes than any buffer of this program has: SI, a DT of 256 bytes 20 times, ET.
fn long<W: Write>(out: &mut W) -> io::Result<()> {
    let mut block = [6; 258];
    block[0] = 2;
    block[1] = 0;
    let mut l = start(out, b"== long\n")?;
    l = feed(out, l, b"\x05\x01")?;
    for _ in 0..20 {
        l = feed(out, l, &block)?;
    }
    l = feed(out, l, b"\x04\x01")?;
    write_end(out, l)
}

// Document 01's example, cut inside HD and inside DT.
fn parts<W: Write>(out: &mut W) -> io::Result<()> {
    let mut l = start(out, b"== in parts\n")?;
    l = feed(out, l, b"\x05\x01\x01\x0Blot7.")?;
    l = feed(out, l, b"csv\x003\x00\x02\x03")?;
    l = feed(out, l, b"ABC\x03\x01\x04\x01")?;
    write_end(out, l)
}

fn main(rt: HostRuntime) -> io::Result<()> {
    let out = &mut rt.stdout();
    captures(out)?;
    packets(out)?;
    long(out)?;
    parts(out)
}
