//! Names of tiles.
//!
//! A name gives a tile's south-west corner, as `N37W105.hgt`: `N` or `S` and two digits of degrees of latitude, `E` or
//! `W` and three digits of degrees of longitude, and `.hgt`. Source: the SRTM HGT documentation; that letters are read
//! in either case, and that `S00`, `W000` and `E180` name nothing, is this project's choice.
//!
//! Only `spelled` defines the form: bytes have it if the letters and digits in their places give them again.

ghost use Rattle.std.specs.Prelude.{◌≡◌, ◌+◌, ◌%◌, ◌<◌, ◌≤◌, MatchOption, ℕ, ℤ};
ghost use Rattle.drain_hgt.specs.Corner.{Corner, IsOnMap, IsWithin};
ghost use Rattle.drain_hgt.specs.Name.{spelled, AreDegrees, IsAt};

use arrayvec::ArrayString;
use std::marker::Model;
use thiserror::Error;

/// How many bytes a name has.
pub const NAME_LENGTH: usize = 11;

/// The digit zero.
const ZERO: u8 = b'0';

/// Degrees from the equator to a pole.
pub const POLE: u32 = 90;

/// Degrees of the map to the east and to the west.
pub const HALF_TURN: u32 = 180;

/// Why bytes name no tile.
#[derive(Clone, Copy, PartialEq, Eq, Debug, Error)]
pub enum NameFault {
    /// The bytes don't have the form of a name.
    #[error("no name has this form")]
    BadForm,
    /// The bytes have the form, and no tile lies there.
    #[error("no tile lies at these degrees")]
    BadRange,
}

/// A tile, by the degrees of its south-west corner.
#[derive(Clone, Copy, PartialEq, Eq, Debug)]
pub struct TileName {
    lat: i8,
    lon: i16,
}

impl Model for TileName {
    ghost Value = { Corner };

    ghost view = { λ n. record { lat = n.lat; lon = n.lon } };

    ghost invariant = { λ n. IsOnMap (record { lat = n.lat; lon = n.lon }) };

    ghost inverse = { λ c. record { lat = c.lat; lon = c.lon } };
}

impl TileName {
    ghost use Rattle.drain_hgt.specs.Name.{MeansName, name_of};

    /// The tile that the bytes name.
    ///
    /// Returns `BadForm` if they don't have a name's form, else `BadRange` if no tile has these degrees: latitudes go
    /// from S90 to S01 and from N00 to N89, longitudes from W180 to W001 and from E000 to E179.
    pub fn parse(bytes: &[u8]) -> Result<TileName, NameFault>
        ensures { MeansName bytes.now result }
    {
        if bytes.len() != NAME_LENGTH {
            return Err(NameFault::BadForm);
        }
        let south = bytes[0].eq_ignore_ascii_case(&b'S');
        let lat = 10 * worth(bytes[1]) + worth(bytes[2]);
        let west = bytes[3].eq_ignore_ascii_case(&b'W');
        let lon = 100 * worth(bytes[4]) + 10 * worth(bytes[5]) + worth(bytes[6]);
        if !bytes.eq_ignore_ascii_case(spelled(south, lat, west, lon).as_bytes()) {
            return Err(NameFault::BadForm);
        }
        TileName::at(south, lat, west, lon).ok_or(NameFault::BadRange)
    }

    /// The latitude of the south-west corner, in degrees to the north.
    pub fn lat(self) -> i8
        ensures degrees { result ≡ self.lat }
        ensures on_map { IsOnMap self }
    {
        self.lat
    }

    /// The longitude of the south-west corner, in degrees to the east.
    pub fn lon(self) -> i16
        ensures degrees { result ≡ self.lon }
        ensures on_map { IsOnMap self }
    {
        self.lon
    }

    /// The name in eleven bytes, as `N37W105.hgt`.
    pub fn text(self) -> ArrayString<NAME_LENGTH>
        ensures { result.bytes ≡ name_of self }
    {
        let TileName { lat, lon } = self;
        let (south, west) = (lat < 0, lon < 0);
        spelled(
            south,
            u32::from(lat.unsigned_abs()),
            west,
            u32::from(lon.unsigned_abs()),
        )
    }

    /// The tile at these degrees to the south or north, and to the west or east; none if no tile lies there.
    fn at(south: bool, lat: u32, west: bool, lon: u32) -> Option<TileName>
        ensures { MatchOption result ((c : Corner) → IsOnMap c → ¬ IsAt south lat west lon c) (λ c. IsOnMap c × IsAt south lat west lon c) }
    {
        let lat = degrees(south, lat, POLE)?;
        let lon = degrees(west, lon, HALF_TURN)?;
        Some(TileName {
            lat: lat as i8,
            lon,
        })
    }
}

/// The degrees as a number, below 0 on the negative side; none outside `-limit` to `limit - 1`, and for `-0`.
fn degrees(negative: bool, count: u32, limit: u32) -> Option<i16>
    requires { limit ≤ HALF_TURN }
    ensures { MatchOption result ((x : ℤ) → IsWithin limit x → ¬ AreDegrees negative count x) (λ x. IsWithin limit x × AreDegrees negative count x) }
{
    if negative {
        if count == 0 || count > limit {
            return None;
        }
        Some(-(count as i16))
    } else {
        if count >= limit {
            return None;
        }
        Some(count as i16)
    }
}

/// The name's bytes for these degrees, each with its letter.
fn spelled(south: bool, lat: u32, west: bool, lon: u32) -> ArrayString<NAME_LENGTH>
    ensures { result.bytes ≡ spelled south lat west lon }
{
    let mut text = ArrayString::<NAME_LENGTH>::new();
    text.push_str(if south { "S" } else { "N" });
    text.push(digit(lat / 10));
    text.push(digit(lat));
    text.push_str(if west { "W" } else { "E" });
    text.push(digit(lon / 100));
    text.push(digit(lon / 10));
    text.push(digit(lon));
    text.push_str(".hgt");
    text
}

/// The last digit of a number.
fn digit(number: u32) -> char
    ensures { result ≡ ZERO + number % 10 }
{
    (ZERO + (number % 10) as u8) as char
}

/// The value of a digit; for another byte some number below 256.
fn worth(byte: u8) -> u32
    ensures small { result < 256 }
    ensures digit { (n : ℕ) → n < 10 → byte ≡ ZERO + n → result ≡ n }
{
    u32::from(byte.wrapping_sub(ZERO))
}
