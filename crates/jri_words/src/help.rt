//! The text of `--help`.

/// What the program does.
pub(crate) const ABOUT: &str = "Decode a baseline JPEG file to a Netpbm image";

/// The text after the options.
pub(crate) const AFTER_HELP: &str = "\
The image goes to standard output, as PGM if it is grey and as PPM if it has three
components. A report goes to standard error: how many restart intervals are sound,
damaged and blank, and what ended the scan. A damaged interval shows what can be
decoded from its start, then grey. A blank one is black. The image of a sound file
is that of `djpeg -dct int -nosmooth`, except for values that no 8-bit image has and
for colours that only component identifiers state. With --resync the file is read
past restart markers that are out of step, as after lost bytes; the report has a
line for each.

Exit status:
  0  image written, no interval damaged
  1  cannot open or read the file, cannot write the image, or out of memory
  2  file refused, bad arguments, or the image would go to a terminal or replace
     the file that is read
  3  image written, an interval is damaged

Many files, and headers alone:
  jri --output-dir DIR [--workers N] [--first K] [--resync] [--quiet] FILE..
  jri --info [--json] FILE..

PICTURE is replaced only on status 0 or 3. A file named - is ./- here. If a name
is not UTF-8, use: jri < FILE";
