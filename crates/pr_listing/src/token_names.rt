//! The names of tokens that no script of this profile has: those of other machines' BASIC.

ghost use Rattle.std.specs.Prelude.{◌≡◌};
ghost use Rattle.pr_listing.specs.TokenNames.{function_name, later_keyword, long_token_name, statement_name, token_name};

use crate::keywords::keyword;

/// Returns the name of a token of one byte: 128 to 203 on the Commodore 64, and 204 to 253 on the
/// Commodore 128 (BASIC 7.0; Commodore 128 Programmer's Reference Guide, BASIC tokens), of which 206
/// begins tokens of two bytes. No bytes for another byte.
pub fn token_name(token: u8) -> &'static [u8]
    ensures { result.now ≡ token_name token }
{
    if token <= 203 {
        return keyword(token);
    }
    later_keyword(token)
}

/// The keyword of a token from 204 on.
#[tactic(auto, unfolding(crate::specs::TokenNames::later_keyword))]
fn later_keyword(token: u8) -> &'static [u8]
    ensures { result.now ≡ later_keyword token }
{
    match token {
        204 => b"RGR",
        205 => b"RCLR",
        206 => b"",
        207 => b"JOY",
        208 => b"RDOT",
        209 => b"DEC",
        210 => b"HEX$",
        211 => b"ERR$",
        212 => b"INSTR",
        213 => b"ELSE",
        214 => b"RESUME",
        215 => b"TRAP",
        216 => b"TRON",
        217 => b"TROFF",
        218 => b"SOUND",
        219 => b"VOL",
        220 => b"AUTO",
        221 => b"PUDEF",
        222 => b"GRAPHIC",
        223 => b"PAINT",
        224 => b"CHAR",
        225 => b"BOX",
        226 => b"CIRCLE",
        227 => b"GSHAPE",
        228 => b"SSHAPE",
        229 => b"DRAW",
        230 => b"LOCATE",
        231 => b"COLOR",
        232 => b"SCNCLR",
        233 => b"SCALE",
        234 => b"HELP",
        235 => b"DO",
        236 => b"LOOP",
        237 => b"EXIT",
        238 => b"DIRECTORY",
        239 => b"DSAVE",
        240 => b"DLOAD",
        241 => b"HEADER",
        242 => b"SCRATCH",
        243 => b"COLLECT",
        244 => b"COPY",
        245 => b"RENAME",
        246 => b"BACKUP",
        247 => b"DELETE",
        248 => b"RENUMBER",
        249 => b"KEY",
        250 => b"MONITOR",
        251 => b"USING",
        252 => b"UNTIL",
        253 => b"WHILE",
        _ => b"",
    }
}

/// Returns the name of a token of two bytes, which only the Commodore 128 has: 206 and 2 to 10 are
/// functions, 254 and 2 to 38 are statements. No bytes for others.
pub fn long_token_name(first: u8, second: u8) -> &'static [u8]
    ensures { result.now ≡ long_token_name first second }
{
    match first {
        206 => function_name(second),
        254 => statement_name(second),
        _ => b"",
    }
}

/// The name of a function by the byte after 206.
#[tactic(auto, unfolding(crate::specs::TokenNames::function_name))]
fn function_name(second: u8) -> &'static [u8]
    ensures { result.now ≡ function_name second }
{
    match second {
        0 | 1 => b"",
        2 => b"POT",
        3 => b"BUMP",
        4 => b"PEN",
        5 => b"RSPPOS",
        6 => b"RSPRITE",
        7 => b"RSPCOLOR",
        8 => b"XOR",
        9 => b"RWINDOW",
        10 => b"POINTER",
        _ => b"",
    }
}

/// The name of a statement by the byte after 254.
#[tactic(auto, unfolding(crate::specs::TokenNames::statement_name))]
fn statement_name(second: u8) -> &'static [u8]
    ensures { result.now ≡ statement_name second }
{
    match second {
        0 | 1 => b"",
        2 => b"BANK",
        3 => b"FILTER",
        4 => b"PLAY",
        5 => b"TEMPO",
        6 => b"MOVSPR",
        7 => b"SPRITE",
        8 => b"SPRCOLOR",
        9 => b"RREG",
        10 => b"ENVELOPE",
        11 => b"SLEEP",
        12 => b"CATALOG",
        13 => b"DOPEN",
        14 => b"APPEND",
        15 => b"DCLOSE",
        16 => b"BSAVE",
        17 => b"BLOAD",
        18 => b"RECORD",
        19 => b"CONCAT",
        20 => b"DVERIFY",
        21 => b"DCLEAR",
        22 => b"SPRSAV",
        23 => b"COLLISION",
        24 => b"BEGIN",
        25 => b"BEND",
        26 => b"WINDOW",
        27 => b"BOOT",
        28 => b"WIDTH",
        29 => b"SPRDEF",
        30 => b"QUIT",
        31 => b"STASH",
        32 => b"",
        33 => b"FETCH",
        34 => b"",
        35 => b"SWAP",
        36 => b"OFF",
        37 => b"FAST",
        38 => b"SLOW",
        _ => b"",
    }
}
