//! What `--help` prints about the script, after the options.

/// The requests of a script with their arguments, the statuses, the limits, and examples.
pub(crate) const SCRIPT_HELP: &str = r#"Requests, one on each line of the script:
  rename-layer LAYER TEXT              rename the layer
  move-layer LAYER INDEX               move the layer to this ordinal
  drop-layer LAYER                     remove the layer
  keep TEXT ..                         remove all layers but these
  insert LAYER INDEX GEOMETRY          insert a new feature
  move-feature LAYER FEATURE INDEX     move the feature to this ordinal
  drop-feature LAYER FEATURE           remove the feature
  set-id LAYER FEATURE NUMBER          set the id of the feature
  clear-id LAYER FEATURE               remove its id
  set LAYER FEATURE KEY TYPE VALUE     set an attribute of the feature
  unset LAYER FEATURE KEY              remove an attribute of the feature
  rename-key LAYER OLD NEW             rename a key of the layer
  exclude LAYERS KEY                   remove an attribute from all features
  exclude-all LAYERS                   remove all attributes
  shift LAYER FEATURE DX DY            move the geometry of the feature
  set-geometry LAYER FEATURE GEOMETRY  replace the geometry of the feature
  compact-keys LAYERS                  remove the keys that no feature uses
  compact-values LAYERS                remove the values that no feature uses
  compact LAYERS                       remove both
  undo                                 take back the last step
  redo                                 redo the step that was undone last
  begin                                open a step of several commands
  end                                  close the step
  cancel                               take back the commands of the step
  mark TEXT                            name the present point of the history
  unmark TEXT                          remove the mark of this name
  back TEXT                            go to the point that the name marks
  marks                                print the names, and where they lead
  history                              print how far undo and redo go
  size                                 print the size of the tile in bytes
  list                                 print the layers
  list LAYER                           print its keys, values and features
  list LAYER FEATURE                   print its attributes and its geometry

Blank lines, and lines that begin with a #, are ignored.

Arguments of requests:
  LAYER       a TEXT, its name; or a # and its ordinal from 0, such as #2
  LAYERS      a LAYER; or a *, for all
  FEATURE     its ordinal from 0; or an @ and its id, such as @17
  TEXT, KEY, OLD, NEW
              "a text", where \" is a quote, \\ a backslash, and \xHH a byte
              up to \x7f; or x: and two hexadecimal digits for each byte
  INDEX, NUMBER
              decimal digits
  DX, DY      a number, such as -30
  TYPE VALUE  string TEXT, int -2, sint -2, uint 2, bool true, bool false,
              float and 8 hexadecimal digits, double and 16
  GEOMETRY    such as point 25,17, or line 2,2 2,10 / 1,1 3,5,
              or polygon 3,6 8,12 20,34

Statuses:
  0  every line was accepted, and the tile was written
  1  a line was refused; the tile was written, unless the run is strict
  2  the command line was refused
  3  TILE is not a tile, or is too large
  4  a file could not be read or written, or the script is too long
  5  out of memory

Limits:
  a tile has at most 67108864 bytes, a script 16777216, a line 65536

Examples:
  echo list | tileshell tile.pbf out.pbf
  printf 'rename-layer "a" "roads"\nshift "roads" 0 -30 3\n' | tileshell tile.pbf out.pbf
  tileshell tile.pbf out.pbf --strict --script changes && mv out.pbf tile.pbf

The manual pages tileshell(1) and tileshell-script(5) have more."#;
