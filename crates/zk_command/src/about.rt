ghost use Rattle.std.specs.Prelude.{◌≡◌};
ghost use Rattle.zk_command.specs.About.{help_text, version_text};

/// The text of `--help`.
const HELP: &[u8] = br"zeekoff: Zeek for captures on disk

  zeekoff list FILE
      say a line for each item of the capture FILE
  zeekoff run [-C] [-b] [--budget N] [--buffer N] -r FILE [SCRIPT..]
      run the default scripts and then each SCRIPT over the capture FILE; what
      they print is said, and their logs are written into this folder
  zeekoff gen START COUNT
      say the packets, bytes and rows of logs of a capture that is made by rule,
      of COUNT conversations (0 to 100000) whose kinds begin with START
  zeekoff --help
      say this text
  zeekoff --version
      say the name and the version

Options of run, before the first SCRIPT:
  -r FILE     the capture, classic pcap of Ethernet or raw IP
  -C          do not judge checksums, as of packets taken where they were sent
  -b          leave out the default scripts (conn.log, dns.log, http.log)
  --budget N  the units that each handler may use: 1000000, or up to 1000000000
  --buffer N  the bytes that wait behind a hole: 1048576, or up to 67108864

Exit status:
  0  done                            6  an output could not be written
  1  the words are no command        7  memory ran out
  2  a script is refused             8  a flood of more than 1000000 events
  3  the capture is refused          9  there is no such file
  4  the capture is cut short       10  an argument is no UTF-8 text
  5  an input could not be read

The guide is docs/GUIDE.md, the manual page man/zeekoff.1.
";

/// The text of `--help`: each command, each option and each exit status, with what it means.
pub fn help() -> &'static [u8]
    ensures { result.now ≡ help_text }
{
    HELP
}

/// The text of `--version`: the name of the program and its version, and a line end.
pub fn version() -> &'static [u8]
    ensures { result.now ≡ version_text }
{
    b"zeekoff 0.1.0\n"
}
