// A page of nine boxes that move, blink and fade.

/// The bytes of the banner: three of its boxes pulse, three blink while they slide, and three stay. They are kept
/// behind this call, so that no proof unfolds them.
pub fn banner() -> &'static [u8] {
    BANNER
}

const BANNER: &[u8] = br#"<!DOCTYPE html>
<html lang="en">
<head>
<meta charset="utf-8">
<meta name="viewport" content="width=device-width">
<title>Banner</title>
<style>
/* nine boxes in a row */
body { margin: 0; background: #f4f4f4; }
.box { position: absolute; top: 20px; width: 90px; height: 60px;
       background-color: #204080; }
#a { left: 10px; }
#b { left: 110px; }
#c { left: 210px; }
#d { left: 310px; }
#e { left: 410px; }
#f { left: 510px; }
#g { left: 610px; }
#h { left: 710px; }
.pulse { animation: pulse 1s ease-in-out infinite alternate; }
.blink { animation: blink 1.5s steps(1) infinite,
                    slide 3s linear 0.5s infinite alternate both; }
@keyframes pulse { from { opacity: 1; } to { opacity: 0.4; } }
@keyframes blink {
  0%, 100% { background-color: #204080; }
  50% { background-color: orange; }
}
@keyframes slide { from { top: 20px; } to { top: 40px; } }
</style>
</head>
<body>
<div id="a" class="box pulse"></div>
<div id="b" class="box"></div>
<div id="c" class="box blink"></div>
<div id="d" class="box pulse"></div>
<div id="e" class="box blink"></div>
<div id="f" class="box"></div>
<div id="g" class="box pulse"></div>
<div id="h" class="box blink"></div>
<div class="box" style="left: 810px; z-index: 2" data-part="logo"></div>
</body>
</html>
"#;
