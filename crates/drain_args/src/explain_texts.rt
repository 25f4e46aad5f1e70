//! The help texts of `drain explain`: what it does, its page, exit statuses and arguments.

pub const ABOUT: &str = "Explain what is wrong with rasters, where, and at how many cells";

pub const LONG_ABOUT: &str =
    "Reads what drain check reads if the folder DIR has a file rnk.hdr or rnk.bil, and otherwise what drain audit
reads, and prints the line that check or audit would print. Below it comes the explanation: each rule that
fails, at how many cells and where first; the cells around the first fault, what the rule expects there and
what was found; the first path of directions without an end, and the ring that it enters or the cell where it
stops. For a refusal it prints what was expected and what was found.

A map has one byte for each cell: the number of the first rule that fails there, 0 where all rules hold, and
255 at a void where all hold. Its header is written beside it, so GIS programs open it. The files are created
only when no refusal is possible any more. Existing files are replaced, except those that are read.

With --only LIST it explains the answer of drain audit --only LIST.

It needs the memory of check or audit, the outlets' labels once more, and for a map a byte for each cell.";

pub const AFTER: &str = "Lines and exit statuses:
  0  accepted ..                             as drain check or drain audit
  1  rejected ..                             the same; the page says what is wrong
  2  refused ..                              the same; the page says what was expected and found
  3  failed Open PATH, failed ReadFailed, failed WriteFailed, failed OutOfMemory, or standard output
     couldn't be written

Examples:
  drain explain --dem dem.bil --products rasters --map faults.bil
  drain explain --side 1201 --products rasters --map faults.bil N37W105.hgt N37W106.hgt";

pub const MAP_HELP: &str = "Write a map of the faults: a name that ends in .bil";

pub const BAD_MAP: &str = "the name of a map must end in .bil";
