//! A page on a raster of elevations with one rule that fails, written by hand: as text and as JSON.

/// The corner cell, which falls to the west, with the code of an outlet.
pub static TEXT: &str = "rejected rule=10 Slope row=2 col=3

elevation from -100000 to 2147483647
rule                cells    row column                         x                         y
10 Slope                1      2      3    500090.500000000000000        -0.250000000000002
hold: 1 VoidCell, 2 Missing, 3 BadCode, 4 BelowGround, 5 OpenRaised, 9 NotLeast, 11 OutletCode, 12 FlatStep, 13 Accumulation
not tried: 6 NoSpill, 7 SpillHeight, 8 SpillRank, 14 Label, 15 SharedLabel
ranks: not checked

first fault: row 2, column 3, x 500090.500000000000000, y -0.250000000000002
- outside the raster, * listed as a sink
ground
   2147483647       100000            -
      -100000            3            -
            -            -            -
con
   2147483647       100000            -
      -100000            3            -
            -            -            -
dir
          E 1          S 4            -
         W 16     outlet 0            -
            -            -            -
acc
            1            1            -
            2            1            -
            -            -            -
rule 10 Slope
expected: dir of a steepest descent
  W 16: drop 100003, key 20001200018, steepest
found: dir outlet 0
";

/// The same as JSON, without its line end.
pub static JSON: &str =
    r#"{"answer":"rejected rule=10 Slope row=2 col=3","refusal":null,"rows":3,"cols":4,"elevation":{"least":-100000,"greatest":2147483647},"ranks":false,"rules":[{"rule":1,"name":"VoidCell","cells":0,"first":null},{"rule":2,"name":"Missing","cells":0,"first":null},{"rule":3,"name":"BadCode","cells":0,"first":null},{"rule":4,"name":"BelowGround","cells":0,"first":null},{"rule":5,"name":"OpenRaised","cells":0,"first":null},{"rule":9,"name":"NotLeast","cells":0,"first":null},{"rule":10,"name":"Slope","cells":1,"first":{"row":2,"col":3,"x":500090.500000000000000,"y":-0.250000000000002}},{"rule":11,"name":"OutletCode","cells":0,"first":null},{"rule":12,"name":"FlatStep","cells":0,"first":null},{"rule":13,"name":"Accumulation","cells":0,"first":null}],"products":[{"product":"con","at_voids":{"cells":0,"first":null},"at_data":{"cells":0,"first":null}},{"product":"dir","at_voids":{"cells":0,"first":null},"at_data":{"cells":0,"first":null}},{"product":"acc","at_voids":{"cells":0,"first":null},"at_data":{"cells":0,"first":null}}],"patch":{"cell":{"row":2,"col":3,"x":500090.500000000000000,"y":-0.250000000000002},"values":[[{"ground":2147483647,"sink":false,"con":2147483647,"dir":1,"acc":1,"bas":null,"rnk":null},{"ground":100000,"sink":false,"con":100000,"dir":4,"acc":1,"bas":null,"rnk":null},null],[{"ground":-100000,"sink":false,"con":-100000,"dir":16,"acc":2,"bas":null,"rnk":null},{"ground":3,"sink":false,"con":3,"dir":0,"acc":1,"bas":null,"rnk":null},null],[null,null,null]]},"expected":{"rule":10,"name":"Slope","product":"dir","found":0,"number":null,"products":[],"codes":[16],"ways":[{"code":16,"drop":100003,"key":20001200018}],"open":null},"run":null,"schema":1,"status":1,"rule":10,"name":"Slope","row":2,"col":3}"#;
