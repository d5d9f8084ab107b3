//! The scripts that are loaded before those of the command line: they write conn.log, dns.log and
//! http.log (Zeek manual, Log Files).
#![tactic(auto)]

ghost use Rattle.std.specs.Prelude.{◌≡◌, map};
ghost use Rattle.zk_scripts.specs.Texts.{default_texts};

mod conn;
mod dns;
mod http;

/// The default scripts, each with its name and its text, in load order. No memory is taken.
pub fn default_scripts() -> &'static [(&'static [u8], &'static [u8])]
    ensures { map (λ one. (one.0.now, one.1.now)) result.now ≡ default_texts }
{
    &[
        (conn::NAME, conn::TEXT),
        (dns::NAME, dns::TEXT),
        (http::NAME, http::TEXT),
    ]
}
